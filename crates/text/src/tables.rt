// The two tables that a check reads, made once for a whole text.
ghost use Rattle.std.specs.Prelude.{◌≡◌, ◌≤◌};
ghost use Rattle.text.specs.Class.{IsClasses};
ghost use Rattle.text.specs.Outline.{act_of, IsMode, IsActs};

use crate::{acts, classes};

#[derive(Drop)]
pub struct Tables {
    classes: [u8; 256],
    acts: [[u8; 43]; 43],
    ghost right_classes: { IsClasses classes },
    ghost right_acts: { IsActs acts },
}

impl Tables {
    pub fn new() -> Tables
        ensures { IsClasses result.classes × IsActs result.acts }
    {
        Tables {
            classes: classes::table(),
            acts: acts::table(),
        }
    }

    // The mode or act that the byte leads to.
    pub fn act(&self, mode: u8, b: u8) -> u8
        requires { IsMode mode }
        ensures value { result ≡ act_of mode b }
        ensures lower_bound { 48 ≤ result }
    {
        let row = usize::from(mode - b'0');
        let column = usize::from(self.classes[usize::from(b)] - b'0');
        self.acts[row][column]
    }
}
