// Line 39, the end of vRead.
ghost use Rattle.definitions.specs.Lines.{line, its_value, line_39};
ghost use Rattle.endings.specs.Ended.{answered};
ghost use Rattle.endings.specs.Stepped.{StepsAt, ReadyAt, HasNode};

use definitions::Answer;
use endings::finish;
use endings::reads::read_value;
use endings::reason::Reason;
use endings::site::Site;
use tables::fields::{HEADER_WORDS, STEPS, WORKER_WORDS};

// Line 39: the node's value is answered.
pub fn line_39(words: &mut [u32], site: Site) -> Result<Answer, Reason>
    requires { ReadyAt site words.old × HasNode site.worker words.old }
    ensures { StepsAt (line its_value line_39) site words.old (answered result) words.new }
{
    let steps = words[HEADER_WORDS + WORKER_WORDS * site.worker + STEPS];
    let value = read_value(words, site)?;
    Ok(finish(words, site.worker, value as u64, steps))
}
