// A text that grows at its end: bytes, numbers in decimal, names.
ghost use Rattle.std.specs.Prelude.{◌≡◌, ◌+◌, ◌≤◌, length, replicate};
ghost use Rattle.treejudge.specs.JudgeCall.{name_room};
ghost use Rattle.job.specs.JobCall.{digits, dotted, name_text, text_room};
ghost use Rattle.job.specs.Inner.TextCode.{Appends};

use crate::call::{ROOM, Text};

// No number below 2^64 has more decimal digits.
const DIGITS: usize = 20;

impl Text {
    // No text.
    pub(crate) fn empty() -> Text
        ensures { result ≡ record { bytes = replicate text_room 0; length = 0 } }
    {
        Text {
            bytes: [0; ROOM],
            length: 0,
        }
    }

    // More bytes at the end.
    pub(crate) fn append(&mut self, more: &[u8])
        requires { self.old.length + length more.now ≤ text_room }
        ensures { Appends self.old more.now (length more.now) self.new }
    {
        let end = self.length + more.len();
        self.bytes[self.length..end].copy_from_slice(more);
        self.length = end;
    }

    // A number in decimal: its last digit first, from the back of an array. `write!` would do, but no contract of `fmt::Write` promises
    // that it succeeds: this text must have the digits for every number.
    pub(crate) fn append_number(&mut self, number: u64)
        requires { self.old.length + 20 ≤ text_room }
        ensures { Appends self.old (digits number) 20 self.new }
    {
        let mut places = [0; DIGITS];
        let mut at = DIGITS - 1;
        let mut rest = number;
        while rest >= 10 {
            // a digit fits a byte
            places[at] = b'0' + (rest % 10) as u8;
            rest /= 10;
            at -= 1;
        }
        places[at] = b'0' + rest as u8;
        self.append(&places[at..]);
    }

    // A dot and a number.
    fn append_dotted(&mut self, number: u64)
        requires { self.old.length + 21 ≤ text_room }
        ensures { Appends self.old (dotted number) 21 self.new }
    {
        self.append(b".");
        self.append_number(number);
    }

    // A node's name: "numbers joined by dots, `-` for the root". At most seven numbers, a dot and three digits for each, are 28 bytes; the
    // last number asks for 20 free ones.
    pub(crate) fn append_name(&mut self, name: &[u8])
        requires { (length name.now ≤ name_room) × (self.old.length + 48 ≤ text_room) }
        ensures { Appends self.old (name_text name.now) 28 self.new }
    {
        let [first, others @ ..] = name else {
            self.append(b"-");
            return;
        };
        self.append_number(u64::from(*first));
        for number in others {
            self.append_dotted(u64::from(*number));
        }
    }
}
