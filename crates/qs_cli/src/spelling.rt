// The forms of single words: what of them `clap` would read otherwise is refused here.
ghost use Rattle.std.specs.Prelude.{◌≡◌, map, string_bytes, is_some, true};
ghost use Rattle.qs_cli.specs.Words.{word_of, option_of, items};
ghost use Rattle.qs_cli.specs.Reading.{is_shape};

#[derive(Clone, Copy)]
pub(crate) enum Shape {
    Plain,
    Assigned,
    Named,
    Excluded,
}

/// The shape of `--` and this text.
fn option_shape(rest: &str) -> Shape
    ensures { is_shape result (option_of rest.now) ≡ true }
{
    match rest.split_once('=') {
        Some((_, value)) => {
            if value.is_empty() {
                Shape::Excluded
            } else {
                Shape::Assigned
            }
        }
        None => {
            if rest.is_empty() {
                Shape::Excluded
            } else {
                Shape::Named
            }
        }
    }
}

fn shape_of(word: &str) -> Shape
    ensures { is_shape result (word_of word.now) ≡ true }
{
    match word.strip_prefix('-') {
        Some(rest) => match rest.strip_prefix('-') {
            Some(rest) => option_shape(rest),
            None => Shape::Excluded,
        },
        None => {
            if word.is_empty() {
                Shape::Excluded
            } else {
                Shape::Plain
            }
        }
    }
}

/// Whether the words are operands and options, each option with its value.
pub(crate) fn are_items(words: &[String]) -> bool
    ensures { result ≡ is_some (items (map string_bytes words.now)) }
{
    let mut waiting = false;
    for word in words {
        match shape_of(word.as_str()) {
            Shape::Plain => waiting = false,
            Shape::Assigned => {
                if waiting {
                    return false;
                }
            }
            Shape::Named => {
                if waiting {
                    return false;
                }
                waiting = true;
            }
            Shape::Excluded => return false,
        }
    }
    !waiting
}
