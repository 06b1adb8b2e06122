// What the header says of the words of a node: below how many projects its value is, how many nodes were ever used, and the counter.
ghost use Rattle.std.specs.Prelude.{◌≡◌, ◌≤◌, length};
ghost use Rattle.tables.specs.Limits.{limits_of};

use crate::fields::{COUNTER, PROJECTS, USED};

#[derive(Clone, Copy)]
pub struct NodeLimits {
    pub projects: u32,
    pub used: u32,
    pub counter: u32,
}

pub fn limits(words: &[u32]) -> NodeLimits
    requires { 9 ≤ length words.now }
    ensures { result ≡ limits_of words.now }
{
    NodeLimits {
        projects: words[PROJECTS],
        used: words[USED],
        counter: words[COUNTER],
    }
}
