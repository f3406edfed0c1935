// The words of answers, a line each: what is said is run and compared, that it has room is proved.
ghost use Rattle.std.specs.Prelude.{◌≡◌, ◌+◌, ◌*◌, ◌≤◌, ◌<◌, length};
ghost use Rattle.replay.specs.Rooms.{room, Fits};

use super::field::Field;
use super::{OUT, ROOM};
use citation::{Paket, Truth};
use fields::{put_byte, put_text};
use formats::FormatVerdict;
use refusal::Refusal;
use status::StatusKind;
use std::io::Write;
use std::mem;
use tree::CITATION_LIMIT;

// What a request is answered: a number, a verdict, a Paket's bounds, or the first bytes of its text.
#[derive(Clone, Copy)]
pub enum Said {
    // The answer `ok`, no refusal's counterpart.
    Fine,
    Figure(u64),
    Verdict(FormatVerdict),
    Bounds(Paket),
    Name(usize),
}

// What a request with a lent buffer is answered before the buffer.
#[derive(Clone, Copy)]
pub enum Lent {
    Done(u64),
    Stated(StatusKind, Option<usize>),
    Judged(Truth, usize),
}

// The answers that wait to be written, and the one that is made behind them: where it starts, and how long it is so far.
#[derive(Drop)]
pub struct Answers {
    bytes: [u8; OUT],
    start: usize,
    len: usize,
    ghost has_room: { start + room ≤ 131200 },
    ghost fits: { len < room },
}

impl Answers {
    pub fn new() -> Answers {
        Answers {
            bytes: [0; OUT],
            start: 0,
            len: 0,
        }
    }

    // More bytes.
    fn put(&mut self, text: &[u8])
        requires { self.old.len + length text.now < room }
        ensures { self.new.len ≡ self.old.len + length text.now }
    {
        put_text(text, &mut self.bytes, self.start + self.len);
        self.len += text.len();
    }

    // The first bytes.
    fn begin(&mut self, word: &[u8])
        requires { length word.now < room }
        ensures { self.new.len ≡ length word.now }
    {
        self.len = 0;
        self.put(word);
    }

    // A number's digits. Not by `write!`, which does not say how many bytes it writes.
    fn digits(&mut self, n: u64)
        requires { self.old.len + 20 < room }
        ensures { self.new.len ≤ self.old.len + 20 }
    {
        let mut digits = [0u8; 20];
        let k = io::decimal(n, &mut digits);
        self.put(&digits[..k]);
    }

    // A space and a number.
    fn number(&mut self, n: u64)
        requires { self.old.len + 21 < room }
        ensures { self.new.len ≤ self.old.len + 21 }
    {
        self.put(b" ");
        self.digits(n);
    }

    // A word, a space and a number.
    fn worded(&mut self, word: &[u8], n: u64)
        requires { length word.now ≤ 7 }
        ensures { self.new.len ≤ 28 }
    {
        self.begin(word);
        self.number(n);
    }

    // A byte string as a field.
    fn hex(&mut self, s: &[u8])
        requires { self.old.len + (2 * length s.now + 1) < room }
    {
        let end = protocol::put_hex(&mut self.bytes, self.start + self.len, s);
        self.len = end - self.start;
    }

    // A space, and a byte string as a field.
    fn field(&mut self, s: &[u8])
        requires { Fits s.now × (self.old.len ≤ 60) }
    {
        self.put(b" ");
        self.hex(s);
    }

    pub fn bad_request(&mut self) {
        self.begin(b"bad request");
    }

    // A number.
    fn figure(&mut self, n: u64) {
        self.begin(b"");
        self.digits(n);
    }

    // H, V or U
    fn verdict(&mut self, v: FormatVerdict) {
        match v {
            FormatVerdict::Holds => self.begin(b"H"),
            FormatVerdict::Violated => self.begin(b"V"),
            FormatVerdict::Unregistered => self.begin(b"U"),
        }
    }

    // refused N
    fn refused(&mut self, why: Refusal)
        ensures { self.new.len ≤ 28 }
    {
        self.worded(b"refused", u64::from(u8::from(why)));
    }

    // ok LOW MARK HIGH
    fn bounds(&mut self, p: Paket) {
        self.worded(b"ok", p.low);
        self.number(u64::from(p.high.is_some()));
        self.number(p.high.unwrap_or(0));
    }

    // ok NAME
    fn named(&mut self, name: &[u8])
        requires { Fits name.now }
    {
        self.begin(b"ok");
        self.field(name);
    }

    // The answer to a request about a text.
    pub fn answer(&mut self, said: Result<Said, Refusal>, text: &Field) {
        match said {
            Ok(Said::Fine) => self.begin(b"ok"),
            Ok(Said::Figure(n)) => self.figure(n),
            Ok(Said::Verdict(v)) => self.verdict(v),
            Ok(Said::Bounds(p)) => self.bounds(p),
            Ok(Said::Name(n)) => self.named(text::head(text.bytes(), n)),
            Err(why) => self.refused(why),
        }
    }

    // ok CODE LENGTH, or ok CODE none
    fn stated(&mut self, kind: StatusKind, length: Option<usize>)
        ensures { self.new.len ≤ 49 }
    {
        self.worded(b"ok", u64::from(u8::from(kind)));
        match length {
            Some(n) => self.number(n as u64),
            None => self.put(b" none"),
        }
    }

    // ok TRUTH COUNT
    fn judged(&mut self, truth: Truth, count: usize)
        ensures { self.new.len ≤ 49 }
    {
        self.worded(b"ok", u64::from(u8::from(truth)));
        self.number(count as u64);
    }

    // The answer to a request that lends a buffer, and then the buffer.
    pub fn answer_lent(&mut self, said: Result<Lent, Refusal>, buf: &Field) {
        match said {
            Ok(Lent::Done(n)) => self.worded(b"ok", n),
            Ok(Lent::Stated(kind, length)) => self.stated(kind, length),
            Ok(Lent::Judged(truth, count)) => self.judged(truth, count),
            Err(why) => self.refused(why),
        }
        self.field(buf.bytes());
    }

    // A part of a tree after a comma, but for the first, where it stands in the tree and has room.
    fn cite(&mut self, tree: &Field, start: usize, size: usize) {
        let Some(part) = tree.bytes().get(start..).and_then(|rest| rest.get(..size)) else {
            return;
        };
        if ROOM - self.len < 2 * part.len() + 3 {
            return;
        }
        if 0 < self.len {
            self.put(b",");
        }
        self.hex(part);
    }

    // The texts that a tree cites.
    pub fn texts(&mut self, tree: &Field) {
        self.begin(b"");
        for n in 0..CITATION_LIMIT {
            match tree::cited(tree.bytes(), n) {
                Err(why) => return self.refused(why),
                Ok(None) => break,
                Ok(Some((start, size))) => self.cite(tree, start, size),
            }
        }
    }

    // Ends the line of an answer. Writes what waits where there is no room for another answer.
    pub fn end_line<W: Write>(&mut self, to: &mut W)
        ensures { self.new.len ≡ 0 }
    {
        let end = put_byte(&mut self.bytes, self.start + self.len, b'\n');
        self.len = 0;
        self.start = end;
        if OUT - end < ROOM {
            console::write_all(to, &self.bytes[..end]);
            self.start = 0;
        }
    }

    // Writes what waits; then nothing waits, and the answer that is made stays as long as it is.
    pub fn flush<W: Write>(&mut self, to: &mut W)
        ensures { (self.new.start ≡ 0) × (self.new.len ≡ self.old.len) }
    {
        let waiting = mem::take(&mut self.start);
        console::write_all(to, &self.bytes[..waiting]);
    }
}
