// Writes the code of every white-space character, and every status word with its code and whether a receiver may check it:
// the comparison holds both tables against the original. A write that fails is passed over.

#![tactic(auto)]

use status::StatusKind;
use std::io::Write;

fn whites<W: Write>(out: &mut W) {
    for code in 0u32..0x110000 {
        if utf8::is_white(code) {
            console::print(out, format_args!("white {code:06x}\n"));
        }
    }
}

fn say_word<W: Write>(out: &mut W, kind: StatusKind) {
    let word = kind.as_str();
    let code = u8::from(kind);
    let checker = if kind.is_receiver_checkable() {
        "receiver"
    } else {
        "sender"
    };
    console::print(out, format_args!("word {word} {code} {checker}\n"));
}

fn words<W: Write>(out: &mut W) {
    for kind in StatusKind::ALL {
        say_word(out, kind);
    }
}

fn main(rt: HostRuntime) {
    let mut out = rt.stdout();
    whites(&mut out);
    words(&mut out);
}
