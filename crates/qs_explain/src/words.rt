// The words of a call: SOURCE PROOF, and maybe FUNCTION, and then `entry` or the path of a statement,
// and then the path of a node of the certificate there.
use qs_entail::Stop;
use std::alloc::Global;

/// A certificate of an entry, and a node in it.
#[derive(Drop)]
pub struct Place {
    /// The statement at whose node the certificate stands; none where it is that of the entry.
    pub statement: Option<Vec<usize>>,
    /// The node, by its path within the certificate.
    pub node: Vec<usize>,
}

/// A place in the entry of this function.
#[derive(Drop)]
pub struct Asked<'a> {
    pub function: &'a str,
    pub place: Place,
}

/// The words of a call.
#[derive(Drop)]
pub struct Order<'a> {
    pub source: &'a str,
    pub proof: &'a str,
    pub asked: Option<Asked<'a>>,
}

// The numbers of a path, as `.0.12`. A point alone is the root, and so is the lack of a word.
fn path_of(alloc: Global, word: Option<&String>) -> Result<Vec<usize>, Stop> {
    let mut path = Vec::new(alloc);
    let Some(word) = word else {
        return Ok(path);
    };
    let steps = word.as_str().strip_prefix('.').ok_or(Stop::Breaks)?;
    if steps.is_empty() {
        return Ok(path);
    }
    for step in steps.split('.') {
        path.push(step.parse::<usize>().map_err(|_error| Stop::Breaks)?)?;
    }
    Ok(path)
}

// The path of the statement; none where the entry's own certificate is meant, as without a word.
fn statement_of(alloc: Global, word: Option<&String>) -> Result<Option<Vec<usize>>, Stop> {
    match word {
        None => Ok(None),
        Some(word) if word.as_str() == "entry" => Ok(None),
        _ => Ok(Some(path_of(alloc, word)?)),
    }
}

/// What the words mean; it breaks where they mean nothing.
pub fn order_of<'a>(alloc: Global, words: &'a [String]) -> Result<Order<'a>, Stop> {
    let source = words.first().ok_or(Stop::Breaks)?;
    let proof = words.get(1).ok_or(Stop::Breaks)?;
    let asked = match words.get(2) {
        Some(function) => Some(Asked {
            function: function.as_str(),
            place: Place {
                statement: statement_of(alloc, words.get(3))?,
                node: path_of(alloc, words.get(4))?,
            },
        }),
        None => None,
    };
    Ok(Order {
        source: source.as_str(),
        proof: proof.as_str(),
        asked,
    })
}
