//! What an image has at first sight.
ghost use Rattle.image_calls.specs.Answers.{ByAbi};
ghost use Rattle.image_calls.specs.Facts.{AsksFacts, DescribesFacts};

use crate::answer::Answer;
use crate::images::survey_in;
use c_numbers::ABI;
use examination::Survey;

/// What an image has at first sight.
#[repr(C)]
#[derive(Clone, Copy)]
pub struct EtcsImage {
    /// How many whole sectors.
    pub sectors: u64,
    /// How many slots its first sector says.
    pub slots: u64,
    /// How many of them are there with all their sectors.
    pub whole: u64,
    /// The greatest number of a block that is valid in these, 0 where there is none.
    pub newest: u64,
}

// Reports what was seen.
fn describe(survey: Survey, out: &mut EtcsImage) -> Answer
    ensures { DescribesFacts survey out.old out.new result }
{
    let Some(slots) = survey.slots else {
        return Answer::NotFormatted;
    };
    *out = EtcsImage {
        sectors: survey.sectors,
        slots,
        whole: survey.whole,
        newest: survey.newest,
    };
    Answer::Done
}

/// What an image has at first sight.
pub fn facts_call(image: &[u8], abi: u32, out: &mut EtcsImage) -> Answer
    ensures { ByAbi abi out.old out.new result (AsksFacts image.now out.old out.new result) }
{
    if abi != ABI {
        return Answer::OtherAbi;
    }
    describe(survey_in(image), out)
}
