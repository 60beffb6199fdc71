//! The lines of a generated load, one after another.
ghost use Rattle.std.specs.Prelude.{◌≡◌, ◌≤◌, ◌+◌, ◌++◌, ◌∷◌, [], length, decimal, codes};
ghost use Rattle.arrayvec.specs.ArrayVec.{array_vec_len};
ghost use Rattle.kc_text.specs.Printing.{printed_line, printed};
ghost use Rattle.kc_session.specs.declared.generator.TheConstants.{LINE};
ghost use Rattle.kc_session.specs.Generated.{next_state, drawn, item_of_draws, drawn_item, after_item, ask_words, generated};

use arrayvec::ArrayVec;

/// The room for a line. The longest would be `ask 4` with 16 vertices of ten digits each.
pub const LINE: usize = 192;

// The most vertices that a reader asks for.
const ASKED: u32 = 16;

/// The next line.
#[derive(Clone, Copy, Debug, PartialEq, Eq)]
pub enum Place {
    /// The first line.
    Format,
    /// The number of vertices.
    Vertices,
    /// The first reader.
    FirstAsk,
    /// The second reader.
    SecondAsk,
    /// The first line of a batch, if a batch is left.
    Batch,
    /// `left` items of a batch, and then its last line.
    Items { left: u32 },
}

/// The rest of a load that is still to be made.
#[derive(Clone, Copy, Debug, PartialEq, Eq)]
pub struct Generator {
    /// The number of vertices.
    pub n: u32,
    /// The number of items of a batch.
    pub items: u32,
    /// The next line.
    pub place: Place,
    /// The number of batches that haven't begun.
    pub batches: u32,
    /// The state of the linear congruential generator.
    pub state: u32,
}

// Appends bytes.
fn put_text(line: &mut ArrayVec<u8, LINE>, bytes: &[u8])
    requires { array_vec_len line.old + length bytes.now ≤ LINE }
    ensures text { line.new.items ≡ line.old.items ++ bytes.now }
    ensures len { array_vec_len line.new ≡ array_vec_len line.old + length bytes.now }
{
    line.try_extend_from_slice(bytes).unwrap();
}

// Appends a name, with its blanks, and a number.
fn put_number(line: &mut ArrayVec<u8, LINE>, name: &[u8], value: u32)
    requires { array_vec_len line.old + length name.now + 10 ≤ LINE }
    ensures text { line.new.items ≡ (line.old.items ++ name.now) ++ decimal value }
    ensures len { array_vec_len line.new ≤ array_vec_len line.old + length name.now + 10 }
{
    put_text(line, name);
    let mut digits = itoa::Buffer::new();
    put_text(line, digits.format(value).as_bytes());
}

// Makes the line `vertices N`.
fn fill_vertices(line: &mut ArrayVec<u8, LINE>, n: u32)
    requires { line.old.items ≡ [] }
    ensures { line.new.items ≡ printed_line (codes "vertices" ∷ decimal n ∷ []) }
{
    put_number(line, b"vertices ", n);
    put_text(line, b"\n");
}

// Makes the line of a reader.
fn fill_ask(line: &mut ArrayVec<u8, LINE>, n: u32)
    requires { line.old.items ≡ [] }
    ensures { line.new.items ≡ printed_line (ask_words n) }
{
    put_text(line, b"ask 4");
    for v in 0..n.min(ASKED) {
        put_number(line, b" ", v);
    }
    put_text(line, b"\n");
}

// Returns the state after a state.
fn next_state(state: u32) -> u32
    ensures { result ≡ next_state state }
{
    ((1_664_525 * state as u64 + 1_013_904_223) % (1 << 32)) as u32
}

// Returns the draw that leads to this state.
fn drawn(state: u32) -> u32
    ensures { result ≡ drawn state }
{
    state / 256
}

// Makes the line of an item whose draws lead to the states a, b and c.
fn fill_item(line: &mut ArrayVec<u8, LINE>, n: u32, a: u32, b: u32, c: u32)
    requires empty { line.old.items ≡ [] }
    requires some { 1 ≤ n }
    ensures { line.new.items ≡ printed_line (item_of_draws n a b c) }
{
    let sign: &[u8] = if drawn(c) % 4 == 0 { b"- " } else { b"+ " };
    put_number(line, sign, drawn(a) % n);
    put_number(line, b" ", drawn(b) % n);
    put_text(line, b"\n");
}

impl Generator {
    ghost use Rattle.kc_session.specs.Generating.{words_left};
    ghost use Rattle.kc_session.specs.private.Generating.{MakesIf};
    ghost use Rattle.kc_session.specs.declared.generator.Place.TheVariants.{Batch, Items};

    /// Makes a whole load.
    pub fn new(seed: u32, n: u32, batches: u32, items: u32) -> Self
        ensures text { generated seed n batches items ≡ printed (words_left result) }
        ensures vertices { result.n ≡ n }
    {
        Generator {
            n,
            items,
            place: Place::Format,
            batches,
            state: seed,
        }
    }

    // Makes the line of the next item of a batch.
    fn fill_drawn(&mut self, line: &mut ArrayVec<u8, LINE>)
        requires empty { line.old.items ≡ [] }
        requires some { 1 ≤ self.old.n }
        ensures line { line.new.items ≡ printed_line (drawn_item self.old.n self.old.state) }
        ensures state { self.new ≡ record self.old { state = after_item self.old.state } }
    {
        let a = next_state(self.state);
        let b = next_state(a);
        let c = next_state(b);
        fill_item(line, self.n, a, b, c);
        self.state = c;
    }

    // Makes the first line of the next batch, if a batch is left.
    fn begin_batch(&mut self, line: &mut ArrayVec<u8, LINE>) -> bool
        requires batch { self.old.place ≡ Batch }
        requires empty { line.old.items ≡ [] }
        ensures { MakesIf self.old self.new line.new.items result }
    {
        if self.batches == 0 {
            return false;
        }
        put_text(line, b"batch\n");
        self.batches -= 1;
        self.place = Place::Items { left: self.items };
        true
    }

    // Makes the line of the next item, or the last line of the batch. `left` items are still due. Always returns true:
    // a begun batch has a next line.
    fn continue_batch(&mut self, line: &mut ArrayVec<u8, LINE>, left: u32) -> bool
        requires batch { self.old.place ≡ Items left }
        requires empty { line.old.items ≡ [] }
        requires some { 1 ≤ self.old.n }
        ensures { MakesIf self.old self.new line.new.items result }
    {
        if left == 0 {
            put_text(line, b"end\n");
            self.place = Place::Batch;
        } else {
            self.fill_drawn(line);
            self.place = Place::Items { left: left - 1 };
        }
        true
    }

    /// Makes the next line in the place of the one before it. Returns false if there is none; the line is then empty.
    pub fn make_line(&mut self, line: &mut ArrayVec<u8, LINE>) -> bool
        requires { 1 ≤ self.old.n }
        ensures { MakesIf self.old self.new line.new.items result }
    {
        line.clear();
        match self.place {
            Place::Format => {
                put_text(line, b"kcore 1\n");
                self.place = Place::Vertices;
                true
            }
            Place::Vertices => {
                fill_vertices(line, self.n);
                self.place = Place::FirstAsk;
                true
            }
            Place::FirstAsk => {
                fill_ask(line, self.n);
                self.place = Place::SecondAsk;
                true
            }
            Place::SecondAsk => {
                fill_ask(line, self.n);
                self.place = Place::Batch;
                true
            }
            Place::Batch => self.begin_batch(line),
            Place::Items { left } => self.continue_batch(line, left),
        }
    }
}
