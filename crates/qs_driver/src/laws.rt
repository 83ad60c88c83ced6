// Laws: functions that do nothing, for what their clauses say.
ghost use Rattle.qs_compile.specs.Agree.{IsInput};
ghost use Rattle.qs_driver.specs.Headline.{Headline};
ghost use Rattle.qs_driver.specs.PlainWords.{CertifiedAreBounded, PromisesInPlainWords};
ghost use Rattle.qs_driver.specs.SampleLaws.{SamplesAreGood, SamplesHaveStacks};
ghost use Rattle.qs_driver.specs.Sizes.{SourcesPassNoSize};

/// Of each call of `run_tool` whose words mean `build`: where it ends with `Done`, the out file
/// holds an image of the source that does what the source does on any stack of at least its bound,
/// the costs of its functions were printed, and `bound` prints these costs and this bound; and each
/// good source ends so, unless memory ran out: without a proof file each that is well typed, within
/// the limits and without recursion.
pub fn accepted_sources_are_built_right()
    ensures { Headline }
{}

/// Of each call of `run_tool`: what its promises say, in plain words, which is its clause `keeps` too.
/// What was done where it ends well; and where no device failed and memory was found, on a store that
/// tells its files, that what is good is accepted and each refusal comes exactly where its cause is.
pub fn promises_in_plain_words()
    ensures { PromisesInPlainWords }
{}

/// Of each call of `check` to which the counts are due, also where a stream fails within them: the
/// source was certified, and main's entry bounds each of its runs, and each of its linear code, for
/// every stack metric.
pub fn certified_sources_are_bounded()
    ensures { CertifiedAreBounded }
{}

/// Of each source of at most 1,048,576 bytes that is a unit, well typed and within the limits: it
/// passes no size of images. So `build`, `bound`, `exec` and `sample` refuse none for its size
/// where it is certified: where they have no image of it, memory was wanting.
pub fn sources_pass_no_size()
    ensures { SourcesPassNoSize }
{}

/// The source of each sample, of 1 to `qs_cli::MOST_SAMPLE_FUNCTIONS` functions beside `main`, is no
/// longer than a source may be, keeps the typing rules, is within the limits and is without
/// recursion: without a proof file only memory can be wanting to certify it.
pub fn samples_are_good()
    ensures { SamplesAreGood }
{}

/// Of each image of a certified sample: `main` takes no arguments, its bound is a number, and a
/// stack can have so many bytes.
pub fn samples_have_stacks()
    ensures { SamplesHaveStacks }
{}

/// Of what was read: it consists of bytes, as agreement asks it of an input.
pub fn consists_of_bytes(input: &[u8])
    ensures { IsInput input.now }
{}
