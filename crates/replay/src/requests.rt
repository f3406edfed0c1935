// The requests: which function a line asks, with how many fields. A field that holds a lent buffer is the last.
use super::answers::{Answers, Lent, Said};
use super::field::{Field, Request};
use citation::{ConditionKind, Paket};
use reader::{Expr, Status};
use refusal::Refusal;

fn tree(bytes: &[u8]) -> Result<Said, Refusal> {
    if tree::is_tree(bytes) {
        return Ok(Said::Fine);
    }
    Err(Refusal::NotATree)
}

fn status(text: &[u8], buf: &mut [u8]) -> Result<Lent, Refusal> {
    Status::parse(text, buf).map(|(kind, length)| Lent::Stated(kind, length))
}

// What is done to a lent buffer, as the number that its answer begins with.
fn done(said: Result<usize, Refusal>) -> Result<Lent, Refusal> {
    said.map(|n| Lent::Done(n as u64))
}

// The requests of one field.
fn with_one(word: &[u8], s: &[u8]) -> Option<Result<Said, Refusal>> {
    match word {
        b"kind" => Some(ConditionKind::of(s).map(|k| Said::Figure(u64::from(u8::from(k))))),
        b"paket" => Some(Paket::parse(s).map(|p| Said::Bounds(p))),
        b"name" => Some(Paket::parse(s).map(|p| Said::Name(p.name))),
        b"registered" => Some(formats::is_registered(s).map(|is| Said::Figure(u64::from(is)))),
        b"tree" => Some(tree(s)),
        _ => None,
    }
}

// The requests of two fields, neither of them lent.
fn with_two(word: &[u8], s: &[u8], t: &[u8]) -> Option<Result<Said, Refusal>> {
    match word {
        b"evaluate" => Some(formats::evaluate(s, t).map(|v| Said::Verdict(v))),
        b"eval" => Some(presence::eval(s, t).map(|v| Said::Figure(u64::from(u8::from(v))))),
        _ => None,
    }
}

// The requests of a field and a lent buffer.
fn with_lent(word: &[u8], s: &[u8], buf: &mut [u8]) -> Option<Result<Lent, Refusal>> {
    match word {
        b"expr" => Some(done(Expr::parse(s, buf))),
        b"status" => Some(status(s, buf)),
        b"print" => Some(done(printer::display(s, buf))),
        b"pakete" => Some(done(packages::pakete(s, buf))),
        _ => None,
    }
}

// The answer to a request of one field.
fn answer_one(word: &[u8], s: &Field, out: &mut Answers) -> Option<()> {
    if matches!(word, b"cited") {
        out.texts(s);
        return Some(());
    }
    out.answer(with_one(word, s.bytes())?, s);
    Some(())
}

// The answer to a request of two fields.
fn answer_two(word: &[u8], s: &[u8], buf: &mut Field, out: &mut Answers) -> Option<()> {
    if let Some(said) = with_lent(word, s, &mut buf.room[0..buf.len]) {
        out.answer_lent(said, buf);
        return Some(());
    }
    out.answer(with_two(word, s, buf.bytes())?, buf);
    Some(())
}

// The fields of a line: a request has three at most.
#[derive(Drop)]
pub struct Fields {
    first: Field,
    second: Field,
    third: Field,
}

impl Fields {
    pub fn new() -> Fields {
        Fields {
            first: Field::new(),
            second: Field::new(),
            third: Field::new(),
        }
    }

    fn answer_one(&mut self, request: Request, out: &mut Answers) -> Option<()> {
        request.read(1, &mut self.first)?;
        answer_one(request.word(), &self.first, out)
    }

    fn answer_two(&mut self, request: Request, out: &mut Answers) -> Option<()> {
        let Fields { first, second, .. } = self;
        request.read(1, first)?;
        request.read(2, second)?;
        answer_two(request.word(), first.bytes(), second, out)
    }

    // The one request of two fields and a lent buffer.
    fn answer_three(&mut self, request: Request, out: &mut Answers) -> Option<()> {
        if !matches!(request.word(), b"verdicts") {
            return None;
        }
        let Fields {
            first,
            second,
            third,
        } = self;
        request.read(3, third)?;
        request.read(1, first)?;
        request.read(2, second)?;
        let buf = &mut third.room[0..third.len];
        let said = verdicts::verdicts(first.bytes(), second.bytes(), buf);
        out.answer_lent(said.map(|(truth, count)| Lent::Judged(truth, count)), third);
        Some(())
    }
}

// The answer to a line, if it is a request.
fn answered(line: &[u8], fields: &mut Fields, out: &mut Answers) -> Option<()> {
    let request = Request::admit(line)?;
    match request.count_pieces() {
        2 => fields.answer_one(request, out),
        3 => fields.answer_two(request, out),
        4 => fields.answer_three(request, out),
        _ => None,
    }
}

// The answer to a line.
pub fn respond(line: &[u8], fields: &mut Fields, out: &mut Answers) {
    if answered(line, fields, out).is_none() {
        out.bad_request();
    }
}
