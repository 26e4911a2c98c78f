// How many answers are right and how many are wrong.
ghost use Rattle.std.specs.Prelude.{◌≡◌, ◌+◌, ◌^◌, ◌<◌, count_by, length};
ghost use Rattle.edges.specs.Tally.{Counted};

use std::fmt;

#[derive(Clone, Copy, Default)]
pub struct Tally {
    pub right: u64,
    pub wrong: u64,
}

impl Tally {
    // The tally of answers of which it is known whether they are right.
    pub fn of(known: &[bool]) -> Self
        ensures right { result.right ≡ count_by (λ is_right. is_right) known.now }
        ensures all { result.right + result.wrong ≡ length known.now }
    {
        let mut tally = Tally::default();
        for is_right in known {
            tally.count(*is_right);
        }
        tally
    }

    // One answer more, a right one or a wrong one.
    pub fn count(&mut self, is_right: bool)
        requires { self.old.right + self.old.wrong < 2 ^ 63 }
        ensures { Counted self.old is_right self.new }
    {
        if is_right {
            self.right += 1;
        } else {
            self.wrong += 1;
        }
    }
}

impl fmt::Display for Tally {
    fn fmt<W: fmt::Write>(&self, f: &mut fmt::Formatter<W>) -> fmt::Result {
        write!(f, "{} right, {} wrong", self.right, self.wrong)
    }
}
