// The drive program: records of 8 bytes on standard input, one line for each on standard output as it comes. Assumes the system's read and write.
#![tactic(auto)]

ghost use Rattle.std.specs.Prelude.{◌≡◌, ◌+◌, ◌-◌, ◌≤◌, ◌<◌, length, take, drop, IfOk};
ghost use Rattle.rules.specs.Accept.{refused};
ghost use Rattle.rules.specs.Input.{after_record, records_of, in_turn, OfInput, between, whole_bytes, turn_of, reading_of};

use rules::{Answer, MOST_BITS, Settings};
use std::io::{Read, Stdin};

// The bytes of a record.
const RECORD: usize = 8;

// What is held: the settings of the sheet, of zeros while there is none, and the cells, the sheet first.
#[derive(Drop)]
struct Held {
    settings: Settings,
    cells: [u8; 16384],
}

// The text of a piece's lines, and where it ends.
#[derive(Drop)]
struct Lines {
    text: [u8; 8192],
    end: usize,
    ghost inside: { end ≤ 8192 },
}

// The bytes in hand: those that wait stand first.
#[derive(Drop)]
struct Input {
    bytes: [u8; 512],
    waiting: usize,
    ghost few: { waiting < 8 },
}

impl Lines {
    // Puts text after the lines.
    fn put(&mut self, text: &[u8])
        requires { self.old.end + length text.now ≤ 8192 }
        ensures { self.new.end ≡ self.old.end + length text.now }
    {
        let start = self.end;
        self.end += text.len();
        self.text[start..self.end].copy_from_slice(text);
    }

    // Puts a number and a space.
    fn put_number(&mut self, value: usize)
        requires { self.old.end + 21 ≤ 8192 }
        ensures { self.new.end ≤ self.old.end + 21 }
    {
        let mut digits = [0; 20];
        let k = io::decimal(value as u64, &mut digits);
        self.put(&digits[..k]);
        self.put(b" ");
    }

    // Puts the bits of the sheet held, bit 0 first, or a dash while there is none.
    fn put_bits(&mut self, held: &Held)
        requires { self.old.end + 64 ≤ 8192 }
        ensures { self.new.end ≤ self.old.end + 64 }
    {
        let mut bits = [0; MOST_BITS];
        let k = records::bits_held(held.settings, &held.cells, &mut bits);
        if k == 0 {
            return self.put(b"-");
        }
        for bit in &mut bits {
            *bit = if *bit == 0 { b'0' } else { b'1' };
        }
        self.put(&bits[..k]);
    }

    // Puts a record's line: answer, value, sum of levels and bits of the sheet held; three numbers of at most 20 digits, 64 bits, three spaces and the end of the line are 128 bytes at most.
    fn put_line(&mut self, answer: Answer, held: &Held)
        requires { self.old.end + 128 ≤ 8192 }
        ensures { self.new.end ≤ self.old.end + 128 }
    {
        self.put_number(answer.number());
        self.put_number(answer.value());
        self.put_number(records::sum_held(held.settings, &held.cells));
        self.put_bits(held);
        self.put(b"\n");
    }
}

impl Held {
    ghost use Rattle.drive.specs.Meaning.{held_of, waiting_of};

    // Obeys one record, and answers it.
    fn obey(&mut self, bytes: &[u8]) -> Answer
        ensures { held_of self.new ≡ after_record (held_of self.old) bytes.now }
    {
        let done = records::obey(bytes, self.settings, &mut self.cells);
        self.settings = done.settings;
        done.answer
    }

    // Obeys the records of one piece of the input, a cut last one included, and makes their lines.
    fn obey_piece(&mut self, bytes: &[u8], lines: &mut Lines)
        requires { length bytes.now ≤ 512 }
        ensures { held_of self.new ≡ in_turn (held_of self.old) (records_of bytes.now) }
    {
        lines.end = 0;
        for record in bytes.chunks(RECORD) {
            let answer = self.obey(record);
            lines.put_line(answer, self);
        }
    }

    // One turn: obeys the whole records of the bytes in hand, and keeps the bytes after them at the front.
    fn take_turn(&mut self, input: &mut Input, hand: usize, lines: &mut Lines)
        requires { hand ≤ length input.old.bytes }
        ensures { (between (held_of self.new) (waiting_of input.new) ≡ turn_of (held_of self.old) (take hand input.old.bytes)) × (input.new.waiting ≡ hand - whole_bytes hand) }
    {
        let whole = hand / RECORD * RECORD;
        self.obey_piece(&input.bytes[..whole], lines);
        input.bytes.copy_within(whole..hand, 0);
        input.waiting = hand - whole;
    }

    // What a reading of so many bytes, after those that wait, makes: none is the end of the input, and what waits then is a cut last record.
    fn take_reading(&mut self, input: &mut Input, count: usize, lines: &mut Lines)
        requires { input.old.waiting + count ≤ length input.old.bytes }
        ensures { between (held_of self.new) (waiting_of input.new) ≡ reading_of (between (held_of self.old) (waiting_of input.old)) (take count (drop input.old.waiting input.old.bytes)) }
    {
        let ended = count == 0;
        if ended {
            self.obey_piece(&input.bytes[..input.waiting], lines);
            input.waiting = 0;
            return;
        }
        self.take_turn(input, input.waiting + count, lines);
    }
}

impl Input {
    ghost use Rattle.drive.specs.Meaning.{waiting_of};

    // One reading, after the bytes that wait, which stay as they are.
    fn read_more(&mut self, stdin: &mut Stdin) -> std::io::Result<usize>
        ensures { IfOk result (λ count. self.new.waiting + count ≤ length self.new.bytes) × (waiting_of self.new ≡ waiting_of self.old) × (self.new.waiting ≡ self.old.waiting) }
    {
        stdin.read(&mut self.bytes[self.waiting..])
    }
}

// Turn after turn until the input ends, cannot be read, or its lines cannot be written. What is then held is what some input leaves: which one can't be said, since read promises nothing of the bytes it puts there.
fn follow(stdin: &mut Stdin, held: &mut Held)
    requires { held.old.settings ≡ refused }
    ensures { OfInput held.old.cells held.new.settings held.new.cells }
{
    let mut input = Input {
        bytes: [0; 512],
        waiting: 0,
    };
    let mut lines = Lines {
        text: [0; 8192],
        end: 0,
    };
    for _ in 0..u64::MAX {
        let Ok(count) = input.read_more(stdin) else {
            io::write_all(2, b"drive: the input cannot be read\n");
            return;
        };
        held.take_reading(&mut input, count, &mut lines);
        if !io::write_all(1, &lines.text[..lines.end]) {
            io::write_all(2, b"drive: the output cannot be written\n");
            return;
        }
        if count == 0 {
            return;
        }
    }
}

// At first there is no sheet, and the record of zeros is held.
fn main(rt: HostRuntime) {
    let mut stdin = rt.stdin();
    let mut held = Held {
        settings: rules::REFUSED,
        cells: [0; 16384],
    };
    follow(&mut stdin, &mut held);
}
