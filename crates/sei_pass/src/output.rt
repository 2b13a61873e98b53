//! Statements that read the input and make the output.
ghost use Rattle.std.specs.Prelude.{◌≡◌, ◌+◌, ◌<◌, ◌≤◌, ◌^◌, length, Option, is_some, true};
ghost use Rattle.sei_stmt.specs.Handling.{Parsed, parsed_words, parsed_bucket, refilled};
ghost use Rattle.sei_stmt.specs.Statements.{emit_tree, parse_tree, parse_call, parse_first, is_lent, render_tree, store_bytes};
ghost use Rattle.sei_pass.specs.Setting.{sealed_call, calling, parsing, rendering};
ghost use Rattle.sei_pass.specs.Frames.{Does, ReadsWords};

use crate::frame::{Frame, PassStep};
use crate::given::Sealed;
use sei_code::{Coded, Rendered, WordList, message_code};
use sei_fault::{AbortCause, Core};
use sei_stmt::Handler;

/// Fills `into` with the input words of the sealed call, and answers the call's bucket; where there
/// is no such call `into` is emptied.
fn fill<H: Handler>(hands: &H, input: &[u8], nth: Coded, into: &mut WordList) -> Option<u64>
    requires room { length (parsed_words (sealed_call ((H.behavior hands.now).parsed input.now) nth)) ≤ into.old.room }
    ensures bucket { result ≡ parsed_bucket (sealed_call ((H.behavior hands.now).parsed input.now) nth) }
    ensures filled { into.new ≡ refilled into.old (parsed_words (sealed_call ((H.behavior hands.now).parsed input.now) nth)) }
{
    match nth.read() {
        Some(n) => hands.parse(input, n, into),
        None => {
            into.clear();
            None
        }
    }
}

/// Whether this bucket is that of a call.
fn is_call(bucket: Option<u64>) -> bool
    ensures { (call : Option Parsed) → bucket ≡ parsed_bucket call → result ≡ is_some call }
{
    bucket.is_some()
}

/// Whether a bucket is lent, and is the call's.
fn is_lent(lent: Option<u64>, bucket: Option<u64>) -> bool
    ensures { (call : Option Parsed) → bucket ≡ parsed_bucket call → result ≡ is_lent lent call }
{
    match lent {
        None => false,
        Some(number) => bucket == Some(number),
    }
}

/// Reads each word through `core` into `into`.
fn read_words<K: Core>(words: &WordList, into: &mut WordList, core: &mut K)
    requires { length words.now.items ≤ into.old.room }
    ensures read { ReadsWords K.gives words.now.items into.new.items core.old core.new }
    ensures room { into.new.room ≡ into.old.room }
{
    into.clear();
    for word in words.words() {
        into.push(core.value(*word));
    }
}

impl Frame {
    /// What the register holds is one more output word.
    #[inline(always)]
    pub fn emit<K: Core>(&mut self, from: u8, index: u64, core: &mut K) -> PassStep
        requires from { from < 32 }
        requires index { index + 1 < 2 ^ 64 }
        ensures { Does K.gives (λ m. emit_tree index m from) self.old self.new result core.old core.new }
    {
        if !self.output.has_room() {
            return PassStep::Bad(AbortCause::OutFull);
        }
        let v = core.value(self.registers[from as usize]);
        let w = core.written(v);
        self.output.push(w);
        PassStep::Next { index: index + 1 }
    }

    /// Reads the sealed input into the input words. `lent` is the number of the bucket that is lent.
    pub fn parse<H: Handler, K: Core>(
        &mut self,
        hands: &H,
        input: &[u8],
        sealed: &Sealed,
        lent: Option<u64>,
        index: u64,
        core: &mut K,
    ) -> PassStep
        requires room { length (parsed_words (sealed_call ((H.behavior hands.now).parsed input.now) sealed.now.nth)) ≤ self.old.input.room }
        requires index { index + 1 < 2 ^ 64 }
        ensures { Does K.gives (λ m. parse_tree (parsing (H.behavior hands.now) input.now sealed.now lent) index m)
            self.old self.new result core.old core.new }
    {
        if core.test(message_code(sealed.number, input) == sealed.code) {
            let bucket = fill(hands, input, sealed.nth, &mut self.input);
            self.test_call(bucket, lent, index, core)
        } else {
            PassStep::Bad(AbortCause::Code)
        }
    }

    /// Tests that there is a call, with this bucket, and that its bucket is lent.
    fn test_call<K: Core>(
        &mut self,
        bucket: Option<u64>,
        lent: Option<u64>,
        index: u64,
        core: &mut K,
    ) -> PassStep
        requires { index + 1 < 2 ^ 64 }
        ensures { (call : Option Parsed) → bucket ≡ parsed_bucket call →
            Does K.gives (λ m. parse_call (calling true call lent) index m) self.old self.new result core.old core.new }
    {
        if core.test(is_call(bucket)) {
            if core.test(is_lent(lent, bucket)) {
                self.write_first_word(index, core)
            } else {
                PassStep::Bad(AbortCause::Bucket)
            }
        } else {
            PassStep::Bad(AbortCause::Code)
        }
    }

    /// Writes the first input word through `core`.
    fn write_first_word<K: Core>(&mut self, index: u64, core: &mut K) -> PassStep
        requires { index + 1 < 2 ^ 64 }
        ensures { Does K.gives (λ m. parse_first index m self.old.input.items) self.old self.new result core.old core.new }
    {
        match self.input.get(0) {
            None => PassStep::Next { index: index + 1 },
            Some(word) => {
                let w = core.written(word);
                self.input.set(0, w);
                PassStep::Next { index: index + 1 }
            }
        }
    }

    /// Makes the output bytes from the output words, which are read into `scratch`. `answer` is the
    /// number of the message that is answered.
    pub fn render<H: Handler, K: Core>(
        &mut self,
        hands: &H,
        answer: u64,
        scratch: &mut WordList,
        index: u64,
        core: &mut K,
    ) -> PassStep
        requires scratch { length self.old.output.items ≤ scratch.old.room }
        requires index { index + 1 < 2 ^ 64 }
        ensures tree { Does K.gives (λ m. render_tree (rendering answer (H.behavior hands.now).rendered) index m) self.old self.new result core.old core.new }
        ensures scratch { scratch.new.room ≡ scratch.old.room }
    {
        read_words(&self.output, scratch, core);
        match hands.render(scratch.words(), &mut self.bytes) {
            Rendered::Bad => PassStep::Bad(AbortCause::Output),
            Rendered::Full => PassStep::Bad(AbortCause::OutFull),
            Rendered::Done => {
                self.code = Some(message_code(answer, self.bytes.bytes()));
                self.write_first_byte(index, core)
            }
        }
    }

    /// Writes the first output byte through `core`: it becomes the low eight bits of the answer.
    fn write_first_byte<K: Core>(&mut self, index: u64, core: &mut K) -> PassStep
        requires { index + 1 < 2 ^ 64 }
        ensures { Does K.gives (λ m. store_bytes index m self.old.bytes.items) self.old self.new result core.old core.new }
    {
        match self.bytes.get(0) {
            None => PassStep::Next { index: index + 1 },
            Some(byte) => {
                let w = core.written(u64::from(byte));
                self.bytes.set(0, (w % 256) as u8);
                PassStep::Next { index: index + 1 }
            }
        }
    }
}
