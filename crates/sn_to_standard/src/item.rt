// Numbers, runs and breaks of an SN detailed text.
ghost use Rattle.std.specs.Prelude.{◌≡◌};
ghost use Rattle.number.specs.Digits.{is_digit};
ghost use Rattle.sn_to_standard.specs.Items.{Within, NumberRead, RunRead, BreakRead, mark_class};

// A number of 1 to 1,048,576 and the place behind its digits. The value is 0 where there is no such number.
#[derive(Clone, Copy)]
pub struct Number {
    pub value: u32,
    pub next: usize,
}

// A run or a break and the place behind it, a break's space included. The length is 0 where there is none, or one of more than 1,048,576.
#[derive(Clone, Copy)]
pub struct Item {
    pub class: u8,
    pub length: u32,
    pub next: usize,
}

fn is_digit(b: u8) -> bool
    ensures { result ≡ is_digit b }
{
    if b < b'0' {
        return false;
    }
    b <= b'9'
}

// The class of the run that a first byte begins.
fn class_of(b: u8) -> u8
    ensures { result ≡ mark_class b }
{
    if b == b'~' {
        return 2;
    }
    if b == b'\\' {
        return 3;
    }
    if b == b'=' {
        return 4;
    }
    1
}

fn no_item(at: usize) -> Item
    ensures { result.length ≡ 0 }
{
    Item {
        class: 1,
        length: 0,
        next: at,
    }
}

// The number at a place.
fn read_number(text: &[u8], at: usize) -> Number
    requires { Within text.now at }
    ensures { NumberRead text.now at result }
{
    let mut value: u32 = 0;
    let mut i = at;
    while i < text.len() {
        let b = text[i];
        if !is_digit(b) {
            return Number { value, next: i };
        }
        value = 10 * value + (b - b'0') as u32;
        if value == 0 {
            return Number { value: 0, next: i };
        }
        if 1048576 < value {
            return Number { value: 0, next: i };
        }
        i += 1;
    }
    Number { value, next: i }
}

// The run at a place.
pub fn read_run(text: &[u8], at: usize) -> Item
    requires { Within text.now at }
    ensures { RunRead text.now at result }
{
    if at == text.len() {
        return no_item(at);
    }
    let mark = text[at];
    let class = class_of(mark);
    if class == 1 {
        let bare = read_number(text, at);
        return Item {
            class: 1,
            length: bare.value,
            next: bare.next,
        };
    }
    let number = read_number(text, at + 1);
    if number.value == 0 {
        return no_item(at);
    }
    let end = number.next;
    if end == text.len() {
        return no_item(at);
    }
    if text[end] != mark {
        return no_item(at);
    }
    Item {
        class,
        length: number.value,
        next: end + 1,
    }
}

// The break behind its opening parenthesis, and the one space behind it.
pub fn read_break(text: &[u8], at: usize) -> Item
    requires { Within text.now at }
    ensures { BreakRead text.now at result }
{
    let number = read_number(text, at);
    if number.value < 2 {
        return no_item(at);
    }
    let end = number.next;
    if text.len() - end < 2 {
        return no_item(at);
    }
    if text[end] != b')' {
        return no_item(at);
    }
    if text[end + 1] != b' ' {
        return no_item(at);
    }
    Item {
        class: 0,
        length: number.value,
        next: end + 2,
    }
}
