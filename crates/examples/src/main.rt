// Runs the examples of docs/SEMANTICS.md and docs/FORMAT.md that concern kinds, packages, status
// words, white space and format conditions, and the corners beside them, and writes a line for each.
//
// A byte that is no printable character is written `\x` and two digits, an empty text `""`, and a
// text of 100 bytes and more, which is one byte over and over, by that byte and its length.

#![tactic(auto)]

ghost use Rattle.std.specs.Prelude.{◌≤◌};

use citation::{ConditionKind, Paket, Truth};
use refusal::Refusal;
use status::StatusKind;
use std::fmt::Debug;
use std::io::Write;

// A write that fails is passed over, here and below.
fn say<W: Write>(out: &mut W, text: &str) {
    console::write_all(out, text.as_bytes());
}

fn say_byte<W: Write>(out: &mut W, b: u8) {
    if b.is_ascii_graphic() {
        console::write_all(out, &[b]);
    } else {
        console::print(out, format_args!("\\x{b:02x}"));
    }
}

// The text with a space before it.
fn say_text<W: Write>(out: &mut W, s: &[u8]) {
    say(out, " ");
    let n = s.len();
    match s {
        [] => say(out, "\"\""),
        [first, ..] if n >= 100 => {
            say_byte(out, *first);
            console::print(out, format_args!(" {n} times"));
        }
        _ => {
            for b in s {
                say_byte(out, *b);
            }
        }
    }
}

fn say_refusal<W: Write>(out: &mut W, why: Refusal) {
    let code = u8::from(why);
    console::print(out, format_args!(" refused {code}\n"));
}

// An answer by its name, or the refusal.
fn say_answer<W: Write, T: Copy + Debug>(out: &mut W, answer: Result<T, Refusal>) {
    match answer {
        Err(why) => say_refusal(out, why),
        Ok(said) => {
            console::print(out, format_args!(" {said:?}\n"));
        }
    }
}

fn yes_or_no(is: bool) -> &'static str {
    if is { "yes" } else { "no" }
}

fn evaluate<W: Write>(out: &mut W, text: &[u8], value: &[u8]) {
    say(out, "evaluate");
    say_text(out, text);
    say_text(out, value);
    say_answer(out, formats::evaluate(text, value));
}

fn registered<W: Write>(out: &mut W, text: &[u8]) {
    say(out, "registered");
    say_text(out, text);
    match formats::is_registered(text) {
        Err(why) => say_refusal(out, why),
        Ok(is) => {
            let answer = yes_or_no(is);
            console::print(out, format_args!(" {answer}\n"));
        }
    }
}

fn kind<W: Write>(out: &mut W, text: &[u8]) {
    say(out, "kind");
    say_text(out, text);
    say_answer(out, ConditionKind::of(text));
}

fn say_bounds<W: Write>(out: &mut W, low: u64, high: Option<u64>) {
    console::print(out, format_args!(" low {low} high "));
    match high {
        Some(high) => console::print(out, format_args!("{high}\n")),
        None => say(out, "n\n"),
    }
}

fn paket<W: Write>(out: &mut W, text: &[u8]) {
    say(out, "paket");
    say_text(out, text);
    match Paket::parse(text) {
        Err(why) => say_refusal(out, why),
        Ok(p) => {
            say(out, " name");
            say_text(out, text::head(text, p.name));
            say_bounds(out, p.low, p.high);
        }
    }
}

fn say_status<W: Write>(out: &mut W, kind: StatusKind) {
    let code = u8::from(kind);
    let word = kind.as_str();
    let checkable = if kind.is_receiver_checkable() {
        "checkable"
    } else {
        "not checkable"
    };
    console::print(out, format_args!(" code {code} word {word} {checkable}\n"));
}

fn status<W: Write>(out: &mut W, word: &[u8]) {
    say(out, "status");
    say_text(out, word);
    match StatusKind::from_word(word) {
        Ok(kind) => say_status(out, kind),
        Err(_) => say(out, " none\n"),
    }
}

fn encoding<W: Write>(out: &mut W, s: &[u8]) {
    say(out, "utf8");
    say_text(out, s);
    if utf8::is_utf8(s) {
        let n = utf8::count(s);
        console::print(out, format_args!(" {n}\n"));
    } else {
        say(out, " no\n");
    }
}

fn white<W: Write>(out: &mut W, code: u32) {
    let answer = yes_or_no(utf8::is_white(code));
    console::print(out, format_args!("white {code:04x} {answer}\n"));
}

fn truth<W: Write>(out: &mut W, is: bool) {
    let code = u8::from(Truth::from(is));
    console::print(out, format_args!("truth {code}\n"));
}

// Asks for each of the words, with one separator between two.
fn each<W: Write, F: Fn(&mut W, &[u8])>(out: &mut W, ask: F, words: &[u8], separator: u8)
    requires { F.IsAlwaysCallable ask }
{
    for word in words.split(|b| *b == separator) {
        ask(out, word);
    }
}

fn list<W: Write, F: Fn(&mut W, &[u8])>(out: &mut W, ask: F, words: &[u8])
    requires { F.IsAlwaysCallable ask }
{
    each(out, ask, words, b' ');
}

// Words that may have spaces.
fn lines<W: Write, F: Fn(&mut W, &[u8])>(out: &mut W, ask: F, words: &[u8])
    requires { F.IsAlwaysCallable ask }
{
    each(out, ask, words, b'\n');
}

// One value for many conditions.
fn conditions<W: Write>(out: &mut W, value: &[u8], words: &[u8]) {
    each(out, |to, word| evaluate(to, word, value), words, b' ');
}

// A condition and its values, with one separator between two.
fn row<W: Write>(out: &mut W, words: &[u8], separator: u8) {
    let mut parts = words.split(|b| *b == separator);
    if let Some(condition) = parts.next() {
        for value in parts {
            evaluate(out, condition, value);
        }
    }
}

// Such rows, with a line feed between two.
fn rows<W: Write>(out: &mut W, words: &[u8], separator: u8) {
    for words in words.split(|b| *b == b'\n') {
        row(out, words, separator);
    }
}

fn values<W: Write>(out: &mut W, words: &[u8]) {
    rows(out, words, b' ');
}

fn values_with_spaces<W: Write>(out: &mut W, words: &[u8]) {
    rows(out, words, b'|');
}

// A byte so many times, and once more.
fn around<W: Write, F: Fn(&mut W, &[u8])>(out: &mut W, ask: F, b: u8, n: usize)
    requires limit { n ≤ 4400 }
    requires ask { F.IsAlwaysCallable ask }
{
    let word = [b; 4401];
    ask(out, text::head(&word, n));
    ask(out, text::head(&word, n + 1));
}

// Numbers with a lower bound.
fn bounds_below<W: Write>(out: &mut W) {
    values(
        out,
        b"902 0 -0 -0.00 +0 0.001 5. .5 1000000000000000000000000000000\n\
          902 -0.001 -1 -.5 . x 1,5\n\
          909 0 -0 .5 17\n\
          909 -1 -0.5 -\n\
          908 1 1.0 +1 01 1.0001 2\n\
          908 0.9999 0.99999999999999999999999 0 -1 -2 x\n\
          914 0.0000000001 1 +.1\n\
          914 0 -0 0.0 -0.5 -1 x",
    );
}

// Numbers with an upper bound.
fn bounds_above<W: Write>(out: &mut W) {
    values(
        out,
        b"955 99.999 99 0 -100 -1000 99.99999999999999999999999\n\
          955 100 100.0 0100 100.001 101 x\n\
          938 10 10.0 010 9.9 -11\n\
          938 10.01 11 100 x\n\
          963 100 100.000 99 -101\n\
          963 100.01 101 1000 x\n\
          968 0 -0 +0 -0.1 -5\n\
          968 0.1 1 x\n\
          969 1 1. 1.0 0.5 -2\n\
          969 1.01 2 10 .",
    );
}

// Numbers that are one number, or any other.
fn exact<W: Write>(out: &mut W) {
    values(
        out,
        b"903 1 +1 01 1. 1.000\n\
          903 -1 0 1.001 0.999 10 2 x\n\
          926 0 -0 +0 .0 0. -0.00 000\n\
          926 1 -1 0.1 -0.01 x .\n\
          927 -1 -1.0 -01 -1.\n\
          927 1 +1 0 -0.999 -1.001 -2 -10 x\n\
          929 1000 +1000 1000.0 001000 1000.\n\
          929 999 1001 1000.1 999.9 -1000 100 10000 x\n\
          915 0 -0 -1 2 1.1 0.999 10\n\
          915 1 1.0 +1 01 1. x .",
    );
}

// Numbers, and whole ones in a range.
fn numbers<W: Write>(out: &mut W) {
    values(
        out,
        b"910 0 -0 +0 5 -5 +5 5. .5 -.5 +5.25 007 0.000 999999999999999999999999999999\n\
          910 . + - -. +. abc 1e5 1,5 1.2.3 --5 +-5 5- 0x1F NaN \xD9\xA3 5\xC2\xA0\n\
          913 1 99999 +1 1.0 5. 099999 99999.0 00001 50000\n\
          913 0 -0 100000 1.5 -1 0.5 0.99999 99999.5 99998.5 100000.0 x",
    );
}

// At most so many digits after the point.
fn fractions<W: Write>(out: &mut W) {
    values(
        out,
        b"937 5 5.0 5. 5.000 -7 0 .0\n\
          937 5.1 .5 0.01 -7.001 x .\n\
          930 1.12 1.120 -.12 7 00\n\
          930 1.123 .001 x\n\
          906 1.123 1.1230 -.123 7 00\n\
          906 1.1234 .0001 x\n\
          907 1.1234 1.12340 -.1234 7 00\n\
          907 1.12345 .00001 x\n\
          925 1.12345 1.123450 -.12345 7 00\n\
          925 1.123456 .000001 x\n\
          912 1.123456 1.1234560 -.123456 7 00\n\
          912 1.1234567 .0000001 x\n\
          946 1.12345678912 1.123456789120 -.12345678912 7 00\n\
          946 1.123456789123 .000000000001 x",
    );
}

// At most so many digits before the point.
fn integers<W: Write>(out: &mut W) {
    values(
        out,
        b"917 1234 01234 -1234 +1234 1234.56789 0 .5 00009999.999\n\
          917 12345 12345.6 10000 -10000 10000.0 x\n\
          962 123456 0123456 999999.9 -999999 0\n\
          962 1234567 1000000 -1000000.5 x",
    );
}

// Groups of digits.
fn groups<W: Write>(out: &mut W) {
    values(
        out,
        b"942 1-01-1-001 0-00-0-000 9-99-9-999\n\
          942 1-01-1-01 1-01-1-0011 1-1-1-001 1-011-1-001 11-01-1-001 1-01-11-001 101-1-001\n\
          942 1-01-1001 1-01-1-00a a-01-1-001 1_01_1_001 -01-1-001 1-01-1- 1-01-1-001- 1-01-1\n\
          942 1-01-1-001-1 1-0\xD9\xA1-1-001\n\
          943 1-01-1\n\
          943 1-01-11 1-01- 1-1-1 11-01-1 1-011 1-01-1-1 1-01 x\n\
          948 1-01-1-12345678-01\n\
          948 1-01-1-1234567-01 1-01-1-123456789-01 1-01-1-12345678-1 1-01-1-12345678-012\n\
          948 1-01-1-12345678 1-01-1-12345678-01-1\n\
          949 1-01-1-12345678-01-1\n\
          949 1-01-1-12345678-01 1-01-1-12345678-01-12 1-01-1-12345678-01- 1-01-1-12345678-1-1\n\
          957 1-01-1-12345678\n\
          957 1-01-1-1234567 1-01-1-123456789 1-01-1 1-01-1-12345678-01\n\
          959 1234567890123-01\n\
          959 123456789012-01 12345678901234-01 1234567890123-1 1234567890123-012 123456789012301\n\
          959 1234567890123",
    );
}

// Lengths in characters.
fn lengths<W: Write>(out: &mut W) {
    values(
        out,
        b"904 1234567890123456\n\
          904 \xC3\xA4\xC3\xA4\xC3\xA4\xC3\xA4\xC3\xA4\xC3\xA4\xC3\xA4\xC3\xA4\xC3\xA4\xC3\xA4\xC3\xA4\xC3\xA4\xC3\xA4\xC3\xA4\xC3\xA4\xC3\xA4\n\
          904 \xE2\x82\xAC\xE2\x82\xAC\xE2\x82\xAC\xE2\x82\xAC\xE2\x82\xAC\xE2\x82\xAC\xE2\x82\xAC\xE2\x82\xAC\xE2\x82\xAC\xE2\x82\xAC\xE2\x82\xAC\xE2\x82\xAC\xE2\x82\xAC\xE2\x82\xAC\xE2\x82\xAC\xE2\x82\xAC\n\
          904 \xC3\xA423456789012345\xF0\x9F\x98\x80\n\
          904 123456789012345 12345678901234567\n\
          904 \xC3\xA4\xC3\xA4\xC3\xA4\xC3\xA4\xC3\xA4\xC3\xA4\xC3\xA4\xC3\xA4\n\
          904 \xC3\xA423456789012345\n\
          904 \xC3\xA4\xC3\xA4\xC3\xA4\xC3\xA4\xC3\xA4\xC3\xA4\xC3\xA4\xC3\xA4\xC3\xA4\xC3\xA4\xC3\xA4\xC3\xA4\xC3\xA4\xC3\xA4\xC3\xA4\xC3\xA4\xC3\xA4\n\
          905 a ab abc \xC3\xA4\xC3\xB6\xC3\xBC \xE2\x82\xAC\xE2\x82\xAC\xE2\x82\xAC\n\
          905 \xF0\x9F\x98\x80\xF0\x9F\x98\x80\xF0\x9F\x98\x80 \xC3\xA9 e\xCC\x81x\n\
          905 abcd \xC3\xA4\xC3\xA4\xC3\xA4\xC3\xA4\n\
          905 \xE2\x82\xAC\xE2\x82\xAC\xE2\x82\xAC\xE2\x82\xAC a\xF0\x9F\x98\x80bc\n\
          905 e\xCC\x81e\xCC\x81",
    );
}

// Latin-1 without lower-case letters.
fn upper_case<W: Write>(out: &mut W) {
    values(
        out,
        b"918 ABC 0123 @[`{~ \xC3\x84\xC3\x96\xC3\x9C ! \xC2\xA1 \xC2\xA9 \xC2\xAB \xC2\xB4\n\
          918 \xC2\xB9 \xC2\xBB \xC3\x80 \xC3\x97 \xC3\x9E \xC3\xB7 \xC2\xA0\n\
          918 abc aBC z \xC3\x9F \xC3\xA0 \xC3\xA4 \xC3\xB6 \xC3\xB8 \xC3\xBE \xC3\xBF \xC4\x80\n\
          918 \xC5\xB8 \xE2\x82\xAC \xCE\x91 \xC2\xAA \xC2\xB5 \xC2\xBA \x7F \xC2\x80 \xC2\x9F\n\
          918 \x1F",
    );
}

// Other shapes.
fn shapes<W: Write>(out: &mut W) {
    values(
        out,
        b"931 +00 x+00 202603282300+00 +00+00\n\
          931 00 +0 +000 202603282300+01 202603282300-00 202603282300\n\
          939 a@b.c @. .@ a.b@c \xC3\xA4@\xC3\xB6.\xC3\xBC\n\
          939 a@b a.b @ . ab\n\
          940 +1 +4930123456 +0 +00000000000000000000000\n\
          940 + 1 ++1 +1a +1- +1+ 0049 +49-30 +\xD9\xA3\n\
          964 0000 2359 2360 9999 1299 0060\n\
          964 000 00000 -001 +123 12:0 abcd 12.0\n\
          965 0000 2359 1299 0060\n\
          965 2360 2400 9999 235 02359 23.5 +000 -001 abcd",
    );
}

// Times of 15 bytes.
fn fields<W: Write>(out: &mut W) {
    values(
        out,
        b"932 202607012200+00 202607012200xyz 000000002200+00 202613992200-99\n\
          932 202607012200\xC3\xA4+\n\
          932 202607012300+00 202607012200+0 202607012200+000 202607012200 2026070a2200+00\n\
          932 +02607012200+00 202607010220+00 202607012200\xC3\xA4+00\n\
          933 202607012300+00 202607012300xyz 000000002300+00 202613992300-99\n\
          933 202607012300\xC3\xA4+\n\
          933 202607012200+00 202607012300+0 202607012300+000 202607012300 2026070a2300+00\n\
          933 +02607012300+00 202607010230+00 202607012300\xC3\xA4+00\n\
          934 202607010400+00 202607010400xyz 000000000400+00 202613990400-99\n\
          934 202607010400\xC3\xA4+\n\
          934 202607010500+00 202607010400+0 202607010400+000 202607010400 2026070a0400+00\n\
          934 +02607010400+00 202607010040+00 202607010400\xC3\xA4+00\n\
          935 202607010500+00 202607010500xyz 000000000500+00 202613990500-99\n\
          935 202607010500\xC3\xA4+\n\
          935 202607010400+00 202607010500+0 202607010500+000 202607010500 2026070a0500+00\n\
          935 +02607010500+00 202607010050+00 202607010500\xC3\xA4+00\n\
          947 202612312300+00 000012312300xyz 2026123123000+0\n\
          947 202612312200+00 202611302300+00 202612302300+00 202612312300+0 202612312300+000\n\
          947 a02612312300+00 20261231230+000",
    );
}

// UB1: midnight in Germany.
fn midnight<W: Write>(out: &mut W) {
    values(
        out,
        b"UB1 202603282300+00 202603292200+00 202610242200+00 202610252300+00 202607012200+00\n\
          UB1 202601012300+00\n\
          UB1 202603292300+00 202603282200+00 202610242300+00 202610252200+00 202607012300+00\n\
          UB1 202601012200+00 202607010400+00 202601010500+00 202607011200+00\n\
          UB1 202403302300+00 202403312200+00 202410262200+00 202410272300+00 201803242300+00\n\
          UB1 201803252200+00 202010242200+00 202010252300+00\n\
          UB1 202403302200+00 202403312300+00 202410262300+00 202410272200+00 201803242200+00\n\
          UB1 201803252300+00 202010242300+00 202010252200+00",
    );
}

// UB2: the start of the gas day.
fn gas_day<W: Write>(out: &mut W) {
    values(
        out,
        b"UB2 202603290400+00 202603280500+00 202610240400+00 202610250500+00 202607010400+00\n\
          UB2 202601010500+00\n\
          UB2 202603290500+00 202603280400+00 202610240500+00 202610250400+00 202607010500+00\n\
          UB2 202601010400+00 202607012200+00 202601012300+00",
    );
}

// UB3: one or the other.
fn either_day<W: Write>(out: &mut W) {
    values(
        out,
        b"UB3 202603282300+00 202603292200+00 202603290400+00 202603280500+00 202610250500+00\n\
          UB3 202610252300+00 202607012200+00 202607010400+00\n\
          UB3 202603292300+00 202603290500+00 202610250400+00 202610252200+00 202607012300+00\n\
          UB3 202607010500+00 202607011200+00",
    );
}

// Leap years; years with a sign and a character before the end, which no value in full form has.
fn years<W: Write>(out: &mut W) {
    values(
        out,
        b"UB1 -00002292300+00 +99907012200+00 202607012200\xC3\xA4+00\n\
          UB2 -00002292300+00 +99907012200+00 202607012200\xC3\xA4+00\n\
          UB3 -00002292300+00 +99907012200+00 202607012200\xC3\xA4+00\n\
          UB1 -00102282300+00 -00402292300+00 -40002292300+00 -99912312300+00 000002292300+00\n\
          UB1 000007012200+00 +00007012200+00 -00007012200+00 202402292300+00 200002292300+00\n\
          UB1 999912312300+00\n\
          UB1 -00102292300+00 -10002292300+00 -00207012300+00 202602292300+00 190002292300+00\n\
          UB1 210002292300+00 202602302300+00",
    );
}

// Values that are not in full form, and dates and times that do not exist.
fn dates<W: Write>(out: &mut W) {
    values(
        out,
        b"UB1 +026+7+12200+00 202607+12200+00 2026+7012200+00 202607012200xyz+00 20260701220000+00\n\
          UB1 202607012200+00+00 202604302200+00 202612312300+00\n\
          UB1 202613012300+00 202600012300+00 202601002300+00 202601322300+00 202604312200+00\n\
          UB1 20260701220+00 2026070122+00 20260701+00 +00 202607012200 202607012200+0\n\
          UB1 202607012200-00 202607012200+01 2026a7012200+00 2026-7012200+00 202607-12200+00\n\
          UB1 202607++2200+00 2026070+2200+00 202607+\xC3\xA42200+00 --2607012200+00\n\
          UB1 +-2607012200+00 00-107012200+00 2026\xC3\xA4012200+00 20260\xC3\xA912200+00\n\
          UB1 202607\xC3\xA42200+00 20260701\xC3\xA400+00 202607012\xC3\xA90+00 202607012260+00\n\
          UB1 202607012400+00\n\
          UB2 202607010400xyz+00 +026+7+10400+00\n\
          UB2 20260701+4+0+00 202607010+00+00 202607+104+0+00",
    );
}

// Conditions without an evaluator here.
fn unregistered<W: Write>(out: &mut W) {
    conditions(
        out,
        b"0",
        b"922 950 951 953 960 961 0902 UB4 UB0 UB UBx UB11 UB01 ub1 900 901 916 928 999 1000 1 500 \
          2000 1P +902 902. -902 90 9020 PUB1",
    );
    values(
        out,
        b"950 41373559241\n\
          951 DE0000000000000000000000000000042",
    );
}

// The empty value.
fn empty_values<W: Write>(out: &mut W) {
    conditions(
        out,
        b"",
        b"902 903 904 905 906 907 908 909 910 912 913 914 915 917 918 925 926 927 929 930 931 932 \
          933 934 935 937 938 939 940 942 943 946 947 948 949 955 957 959 962 963 964 965 968 969 \
          UB1 UB2 UB3",
    );
}

// Whether a condition has an evaluator.
fn registered_texts<W: Write>(out: &mut W) {
    list(
        out,
        registered,
        b"902 903 904 905 906 907 908 909 910 912 913 914 915 917 918 925 926 927 929 930 931 932 \
          933 934 935 937 938 939 940 942 943 946 947 948 949 955 957 959 962 963 964 965 968 969 \
          UB1 UB2 UB3 922 950 951 953 960 961 0902 UB4 UB UBx ub1 900 901 999 1 +902 1P",
    );
}

// The kinds of citations.
fn kinds<W: Write>(out: &mut W) {
    list(
        out,
        kind,
        b"1 5 +5 005 +005 499 +499 00000000000000000000000000499 500 899 0500 +899 900 901 999 \
          0902 +902 2000 2499 002000 UB1 UB3 UB4 UB UBx UBP UB5 UB1P0..1 1P 1P0..1 XP1 P 5P PUB1 \
          2000P 1Px P1 +5P 0 000 +0 1000 1999 2500 4294967295 4294967296 4294967297 4294967301 \
          4294967796 18446744073709551617 18446744073709551621 -5 ++5 +-5 + 5. 5.0 5a a 0x5 1p ub1 \
          uB1 U1 B1 xUB1 1[2 \xD9\xA5 \xEF\xBC\x95",
    );
}

// The bounds of Paket citations.
fn pakete<W: Write>(out: &mut W) {
    list(
        out,
        paket,
        b"1P 01P 12345678901234567890123P 1P0..1 10P1..1 2P0..n 3P5..2 1P+1..+2 1P+7..n 1P000..001 \
          0P0..0 1P1..2 1P18446744073709551615..18446744073709551615 1P0..018446744073709551615 \
          1P18446744073709551615..n XP1..2 P1..2 P 1P1.2 1P1 1P. 1P.. 1P1.. 1P..1 1P..n 1P1...2 \
          1P1..2..3 1P1..N 1P1..n1 1Pn..1 1P++1..2 1P-1..2 1P1..-2 1P1..+ 1P+..1 1P1..++2 1P1..+n \
          1PP 1P1..2P 1P1..2x +1P 1xP -1P 1.P 1p0..1 5 UB1 1P18446744073709551616..1 \
          1P0..18446744073709551616 1P99999999999999999999..n \xD9\xA3P 1P\xD9\xA3..4",
    );
}

// Status words.
fn statuses<W: Write>(out: &mut W) {
    list(
        out,
        status,
        b"Muss Soll Kann X M S K muss MUSS Mus Musss Mu MussX x m s k X[1] X1 XX MM Soll. KannKann \
          Y",
    );
}

// From and to.
const RANGES: [(u32, u32); 14] = [
    (0, 0),
    (0x08, 0x0E),
    (0x1B, 0x21),
    (0x84, 0x86),
    (0x9F, 0xA1),
    (0x167F, 0x1681),
    (0x180E, 0x180E),
    (0x1FFF, 0x200D),
    (0x2027, 0x202A),
    (0x202E, 0x2030),
    (0x205E, 0x2060),
    (0x2FFF, 0x3001),
    (0xFEFF, 0xFEFF),
    (0x10FFFF, 0x10FFFF),
];

// White space, and its neighbours.
fn white_space<W: Write>(out: &mut W) {
    for (low, high) in RANGES {
        for code in low..=high {
            white(out, code);
        }
    }
}

// UTF-8, and how many characters it is.
fn encodings<W: Write>(out: &mut W) {
    list(
        out,
        encoding,
        b"a abc \xC3\xA4 \xE2\x88\xA7 \xF0\x9F\x98\x80 a\xC3\xA4\xE2\x88\xA7\xF0\x9F\x98\x80 \
          \xC2\x80 \xDF\xBF \xE0\xA0\x80 \xED\x9F\xBF \xEE\x80\x80 \xEF\xBF\xBF \xF0\x90\x80\x80 \
          \xF4\x8F\xBF\xBF \xFF \xFE \x80 \xBF \xC0\x80 \xC1\xBF \xC2 \xC2a \xC3\xC3 \xE0\x80\x80 \
          \xE0\x9F\xBF \xE2\x88 \xE2a\xA7 \xED\xA0\x80 \xED\xBF\xBF \xF0\x8F\xBF\xBF \xF0\x9F\x98 \
          \xF4\x90\x80\x80 \xF5\x80\x80\x80 a\xFF \xC3\xA4\xA4",
    );
}

// The longest text and the longest value, 4,400 and 1,024 bytes, and one byte more.
fn limits<W: Write>(out: &mut W) {
    around(out, kind, b' ', 4400);
    around(out, kind, b'P', 4400);
    around(out, kind, 0xFF, 4400);
    around(out, paket, b'1', 4400);
    around(out, paket, 0xFF, 4400);
    around(out, registered, b'9', 4400);
    around(out, registered, 0xFF, 4400);
    around(out, |to, word| evaluate(to, word, b"0"), b'9', 4400);
    around(out, |to, word| evaluate(to, word, b"\xFF"), b'9', 4400);
    around(out, |to, word| evaluate(to, word, b"\xFF"), 0xFF, 4400);
}

// The same of values, which are tested after the text.
fn value_limits<W: Write>(out: &mut W) {
    around(out, |to, value| evaluate(to, b"902", value), b'9', 1024);
    around(out, |to, value| evaluate(to, b"926", value), b'0', 1024);
    around(out, |to, value| evaluate(to, b"955", value), b'0', 1024);
    around(out, |to, value| evaluate(to, b"955", value), b'1', 1024);
    around(out, |to, value| evaluate(to, b"918", value), b'A', 1024);
    around(out, |to, value| evaluate(to, b"950", value), b'9', 1024);
    around(out, |to, value| evaluate(to, b"902", value), 0xFF, 1024);
    around(out, |to, value| evaluate(to, b"\xFF", value), b'9', 1024);
}

// A bool as a truth.
fn truths<W: Write>(out: &mut W) {
    truth(out, false);
    truth(out, true);
}

// Texts and values with spaces.
fn with_spaces<W: Write>(out: &mut W) {
    values_with_spaces(
        out,
        b"910| 5|5 \n\
          942|1-01-1-001 \n\
          905|   |    \n\
          918| |A B|\t|A\xC3\n\
          931|+00 \n\
          940|+ 1\n\
          UB1|2026 7012200+00| 202607012200+00|202607012200+00 \n\
          \x20902|0\n\
          902 |0\n\
          \xFF|0\n\
          902|\xFF\n\
          1|\xFF",
    );
    lines(
        out,
        kind,
        b"\n 5\n5 \n5 5\n UB1\n1 [2\n \n\xC2\xA05\n1 P\nUB 1\n\xFF\nUB\xC3\n1P\xED\xA0\x80",
    );
    lines(
        out,
        paket,
        b"\n 1P\n1P \n1 P\n1P1.. 2\n1P 1..2\n\xFF\n1P\xC3",
    );
    lines(out, registered, b"\n 902\n\xFF");
    lines(out, status, b"\n X\nX \nMuss ");
    encoding(out, b"");
    evaluate(out, b"918", b"A\n");
    evaluate(out, b"", b"0");
    evaluate(out, b"950", b"");
    evaluate(out, b"", b"");
}

fn main(rt: HostRuntime) {
    let mut stdout = rt.stdout();
    let out = &mut stdout;
    bounds_below(out);
    bounds_above(out);
    exact(out);
    numbers(out);
    fractions(out);
    integers(out);
    groups(out);
    lengths(out);
    upper_case(out);
    shapes(out);
    fields(out);
    midnight(out);
    gas_day(out);
    either_day(out);
    years(out);
    dates(out);
    unregistered(out);
    empty_values(out);
    registered_texts(out);
    kinds(out);
    pakete(out);
    statuses(out);
    white_space(out);
    encodings(out);
    limits(out);
    value_limits(out);
    truths(out);
    with_spaces(out);
}
