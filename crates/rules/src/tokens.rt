// Tokens in two slices, class numbers and lengths.
ghost use Rattle.std.specs.Prelude.{◌≡◌, ◌+◌, ◌≤◌, length, take, drop};

// As the pass is lent them: token i has the class and the length at place i.
#[derive(Clone, Copy)]
pub struct Tokens<'a> {
    pub classes: &'a [u8],
    pub lengths: &'a [u32],
    ghost paired: { length classes.now ≡ length lengths.now },
}

impl<'a> Tokens<'a> {
    pub fn len(self) -> usize
        ensures { result ≡ length self.entry.classes.now }
    {
        self.classes.len()
    }

    // The tokens behind the first n.
    pub fn behind(self, n: usize) -> Tokens<'a>
        requires { n ≤ length self.classes.now }
        ensures classes { result.classes.now ≡ drop n self.entry.classes.now }
        ensures lengths { result.lengths.now ≡ drop n self.entry.lengths.now }
    {
        Tokens {
            classes: &self.classes[n..],
            lengths: &self.lengths[n..],
        }
    }
}
