// Lists of cases, each after its length in three bytes, high byte first.
ghost use Rattle.std.specs.Prelude.{◌≡◌, ◌+◌, ◌*◌, ◌<◌, length};
ghost use Rattle.std.specs.Iterator.{at_most};
ghost use Rattle.chart_list.specs.Bounds.{CaseAt};
ghost use Rattle.chart_list.specs.Cases.{TakesCase, Lent};

// The cases of a list, up to its end or to where it is cut.
#[derive(Clone, Copy)]
pub struct Cases<'a>(pub &'a [u8]);

impl<'a> Iterator for Cases<'a> {
    type Item = &'a [u8];

    ghost next_gives = { λ s r t. TakesCase s.0.now r t.0.now };

    ghost remaining = { λ s. at_most (length s.0.now) };

    fn next(&mut self) -> Option<&'a [u8]> {
        let (length, rest) = self.0.split_first_chunk::<3>()?;
        let [high, middle, low] = *length;
        let length = u32::from_be_bytes([0, high, middle, low]) as usize;
        let (case, rest) = rest.split_at_checked(length)?;
        self.0 = rest;
        Some(case)
    }
}

// The number of places to be lent, in the first two bytes of a case, and the case's text after them.
pub fn lent_case(case: &[u8]) -> Option<(usize, &[u8])>
    ensures { Lent case.now result }
{
    let (places, text) = case.split_first_chunk::<2>()?;
    Some((u16::from_be_bytes(*places) as usize, text))
}

// Where a case stands in the list: from `start` up to `end`. Where the list is cut, it is not whole, and is all that is left.
#[derive(Clone, Copy)]
pub struct Case {
    pub whole: bool,
    pub start: usize,
    pub end: usize,
}

// A number of three bytes, high byte first.
pub fn number_of(high: u8, middle: u8, low: u8) -> usize
    ensures { result ≡ 65536 * high + 256 * middle + low }
{
    u32::from_be_bytes([0, high, middle, low]) as usize
}

// The case whose length begins at the place `at`.
pub fn case_at(list: &[u8], at: usize) -> Case
    requires { at < length list.now }
    ensures { CaseAt list.now at result }
{
    let mut rest = Cases(&list[at..]);
    match rest.next() {
        Some(case) => Case {
            whole: true,
            start: at + 3,
            end: at + 3 + case.len(),
        },
        None => Case {
            whole: false,
            start: at,
            end: list.len(),
        },
    }
}
