// Where bytes go: sinks, and the printing of text, numbers and values to any of them.
#![tactic(auto)]

ghost use Rattle.std.specs.Prelude.{◌≡◌, ℕ, ◌+◌, ◌^◌, ◌<◌, ◌≤◌, List, length, decimal, fold};
ghost use Rattle.sinks.specs.Text.{laid, value_text};
ghost use Rattle.sinks.specs.Post.{Written};
ghost use Rattle.sinks.specs.Steps.{counted, filled};

// What is put is passed beside its sink, as with a formatter.
pub trait Sink {
    // What one byte makes of the sink.
    ghost step: { Self → ℕ → Self };

    fn put(&mut self, b: u8)
        ensures { self.new ≡ step self.old b };
}

#[derive(Drop)]
pub struct Count {
    n: usize,
}

impl Sink for Count {
    ghost step = { counted };

    fn put(&mut self, _b: u8) {
        self.n = self.n.saturating_add(1);
    }
}

// A place beside the buffer: a shrinking slice is a new reference at each byte, and `step` speaks of one.
#[derive(Drop)]
pub struct Filler<'a> {
    out: &'a mut [u8],
    at: usize,
}

impl Sink for Filler<'_> {
    ghost step = { filled };

    fn put(&mut self, b: u8) {
        if self.at < self.out.len() {
            self.out[self.at] = b;
            self.at += 1;
        }
    }
}

// The bytes of `t`.
pub fn put_text<S: Sink>(s: &mut S, t: &[u8])
    ensures { s.new ≡ fold S.Sink.step s.old t.now }
{
    for b in t {
        s.put(*b);
    }
}

// `n` in decimal, with no leading zero.
pub fn put_number<S: Sink>(s: &mut S, n: u64)
    ensures { s.new ≡ fold S.Sink.step s.old (decimal n) }
{
    if n >= 10 {
        put_number(s, n / 10);
    }
    s.put(b'0' + (n % 10) as u8);
}

// `7`, or `(-7)`.
pub fn put_value<S: Sink>(s: &mut S, v: i16)
    ensures { s.new ≡ fold S.Sink.step s.old (value_text v) }
{
    if v < 0 {
        put_text(s, b"(-");
        put_number(s, v.unsigned_abs() as u64);
        put_text(s, b")");
    } else {
        put_number(s, v as u64);
    }
}

// What can be written: its text, and the code that sends it to any sink.
pub trait Document {
    ghost shown: { Self → List ℕ };

    fn emit<S: Sink>(&self, s: &mut S)
        ensures { s.new ≡ fold S.Sink.step s.old (shown self.now) };
}

fn measure_of<D: Document>(d: &D) -> usize
    requires { length (D.Document.shown d.now) < 2 ^ 64 }
    ensures { result ≡ length (D.Document.shown d.now) }
{
    let mut count = Count { n: 0 };
    d.emit(&mut count);
    count.n
}

fn fill_document<D: Document>(f: &mut Filler, d: &D)
    requires { f.old.at + length (D.Document.shown d.now) ≤ length f.old.out.now }
    ensures kept { f.new.out.ghost_name ≡ f.old.out.ghost_name }
    ensures bytes { f.new.out.now ≡ laid f.old.out.now f.old.at (D.Document.shown d.now) }
{
    d.emit(f);
}

fn fill_of<D: Document>(d: &D, out: &mut [u8])
    requires { length (D.Document.shown d.now) ≤ length out.old }
    ensures { out.new ≡ laid out.old 0 (D.Document.shown d.now) }
{
    let mut filler = Filler { out, at: 0 };
    fill_document(&mut filler, d);
}

// The text of `d` into the front of `out`, and its length; where it does not fit, nothing is written, and the length is the error.
pub fn write_of<D: Document>(d: &D, out: &mut [u8]) -> Result<usize, usize>
    requires { length (D.Document.shown d.now) < 2 ^ 64 }
    ensures { Written (D.Document.shown d.now) out.old out.new result }
{
    let needed = measure_of(d);
    if needed > out.len() {
        return Err(needed);
    }
    fill_of(d, out);
    Ok(needed)
}
