//! Block files with words in the form of another program, to cells.

ghost use Rattle.std.specs.Prelude.{◌≡◌, ℕ, ◌+◌, ◌<◌, ◌≤◌, ◌^◌, List, [], ◌∷◌, take, length, IfOk};
ghost use Rattle.std.specs.Prelude.{IfSome, IsTrue};
ghost use Rattle.aes3_cell.specs.Ends.{Grew, Told};
ghost use Rattle.aes3_cell.specs.Written.{written};
ghost use Rattle.aes3_level.specs.declared.level.Level.{Level};
ghost use Rattle.aes3_lock.specs.Reports.{blocks, normal};
ghost use Rattle.aes3_input.specs.Running.{FrontRan, InputRun, PieceRan, ends_of, movement_of};
ghost use Rattle.aes3_frame.specs.Files.{IsBlockFile};
ghost use Rattle.aes3_forms_words.specs.declared.alsa_am824.Words.{Words};
ghost use Rattle.aes3_forms_words.specs.Lists.{own_of};
ghost use Rattle.aes3_forms_words.specs.Reading.{is_left_out};
ghost use Rattle.aes3_engine.specs.Words.{TakesWords, WordRan, encoded_other, told_words, with_left_out};
ghost use Rattle.aes3_engine.specs.Words.{words_counts, words_file, words_left_out, words_state};

use crate::encoding::{Encoder, blank_cells, encode};
use aes3_block::{BLOCK_BYTES, BlockFile, SUBFRAMES};
use aes3_cell::{Counts, Form, RunError, Sink, Source, put_ending};
use aes3_forms_words::Words;
use aes3_input::{Input, convert, feed_fronts};

/// How many octets a word has.
const WORD_LEN: usize = 4;

/// How many words of a block can come before the next block.
const MOST_LEFT_OUT: usize = SUBFRAMES - 1;

/// The counts of a run over a block file in words of a form, and how many words it left out.
#[derive(Clone, Copy)]
pub struct EncodedWords {
    /// The counts of any run over a block file.
    pub counts: Counts,
    /// Words left out before the first block; none if the words are a block file's own.
    pub left_out: u64,
}

/// Reads words as a block file's. Words before the first one that may begin a block are left out,
/// at most as many as a block has after its first.
#[derive(Drop)]
struct WordReader {
    file: BlockFile,
    words: Words,
    /// How many words may still be left out before the first block.
    left: usize,
    has_begun: bool,
}

impl WordReader {
    /// Whether the next word, which begins with this octet, is left out.
    fn is_left_out(&self, octet: u8) -> bool
        ensures { result ≡ is_left_out self.now.has_begun self.now.words self.now.left octet }
    {
        !self.has_begun && self.left > 0 && self.words.is_within(octet)
    }

    /// Takes a word, and writes the block that it ends.
    fn take_word<T: Sink>(
        &mut self,
        encoder: &mut Encoder,
        sink: &mut T,
        word: [u8; WORD_LEN],
    ) -> Result<(), RunError>
        requires room { T.failed sink.old + 1 < 2 ^ 64 }
        requires following { (begun b : List ℕ) × (length b + 4 ≤ 2 ^ 40 + length begun)
            × TakesWords self.old.words self.old.file encoder.old.blocks self.old.left
            self.old.has_begun begun b }
        ensures { WordRan (words_state self.old.words encoder.old.output self.old.file
            encoder.old.blocks self.old.left self.old.has_begun)
            (words_state self.new.words encoder.new.output self.new.file encoder.new.blocks
            self.new.left self.new.has_begun []) word
            (movement_of T.taken T.failed sink.old sink.new) result }
    {
        if self.is_left_out(word[0]) {
            self.left -= 1;
            return Ok(());
        }
        self.has_begun = true;
        let place = (self.file.seen() / WORD_LEN as u64 % SUBFRAMES as u64) as usize;
        let own = self.words.read_word(place, word);
        feed_fronts(&mut self.file, encoder, sink, &own)
    }
}

/// Words as they come, in pieces of any size.
#[derive(Drop)]
struct WordFile {
    reader: WordReader,
    /// The octets of the current word, and how many there are.
    begun: [u8; WORD_LEN],
    len: usize,
    ghost few: { len < 4 },
}

impl WordFile {
    /// The first word of a piece, if no word is begun.
    fn whole_word(&self, piece: &[u8]) -> Option<[u8; WORD_LEN]>
        ensures none_begun { IfSome result (λ _. self.now.len ≡ 0) }
        ensures enough { IfSome result (λ _. WORD_LEN ≤ length piece.now) }
        ensures word { IfSome result (λ word. word ≡ take WORD_LEN piece.now) }
    {
        if self.len > 0 {
            return None;
        }
        match piece.first_chunk() {
            Some(word) => Some(*word),
            None => None,
        }
    }

    /// Takes an octet, and the word that it ends.
    fn take_octet<T: Sink>(
        &mut self,
        encoder: &mut Encoder,
        sink: &mut T,
        octet: u8,
    ) -> Result<(), RunError>
        requires room { T.failed sink.old + 1 < 2 ^ 64 }
        requires following { (b : List ℕ) × (length b + 1 ≤ 2 ^ 40) × TakesWords self.old.reader.words
            self.old.reader.file encoder.old.blocks self.old.reader.left self.old.reader.has_begun
            (take self.old.len self.old.begun) b }
        ensures { PieceRan (words_state self.old.reader.words encoder.old.output self.old.reader.file
            encoder.old.blocks self.old.reader.left self.old.reader.has_begun
            (take self.old.len self.old.begun))
            (words_state self.new.reader.words encoder.new.output self.new.reader.file
            encoder.new.blocks self.new.reader.left self.new.reader.has_begun
            (take self.new.len self.new.begun)) (octet ∷ [])
            (movement_of T.taken T.failed sink.old sink.new) result }
    {
        let mut begun = self.begun;
        begun[self.len] = octet;
        self.begun = begun;
        let count = self.len + 1;
        if count < WORD_LEN {
            self.len = count;
            return Ok(());
        }
        self.len = 0;
        self.reader.take_word(encoder, sink, begun)
    }
}

impl Input<Encoder> for WordFile {
    ghost state = { λ w encoder. words_state w.reader.words encoder.output w.reader.file
        encoder.blocks w.reader.left w.reader.has_begun (take w.len w.begun) };

    /// Takes a word if no word is begun, else an octet.
    fn take_front<T: Sink>(
        &mut self,
        encoder: &mut Encoder,
        sink: &mut T,
        piece: &[u8],
    ) -> Result<usize, RunError> {
        if let Some(word) = self.whole_word(piece) {
            self.reader.take_word(encoder, sink, word)?;
            return Ok(WORD_LEN);
        }
        self.take_octet(encoder, sink, piece[0])?;
        Ok(1)
    }

    fn finish<T: Sink>(&mut self, encoder: &mut Encoder, sink: &mut T) -> Result<(), RunError> {
        let left = (self.reader.file.seen() + self.len as u64) % BLOCK_BYTES as u64;
        if left > 0 {
            return Err(RunError::BadLength { left });
        }
        match put_ending(encoder.output, sink) {
            Ok(()) => Ok(()),
            Err(_) => Err(RunError::Write),
        }
    }
}

/// The result for an input of this many bytes. After the words that are left out come whole blocks.
/// The left-out words are fewer than a block's, so they are the remainder of the bytes.
fn answer_of(bytes: u64) -> EncodedWords
    ensures counts { (b : List ℕ) → length b ≡ bytes → result.counts ≡ words_counts b }
    ensures left_out { (form : Words) (b : List ℕ) → length b ≡ bytes → IsBlockFile (own_of form b)
        → result.left_out ≡ words_left_out form b }
{
    EncodedWords {
        counts: Counts {
            bytes,
            cells: 0,
            blocks: 0,
            faults: 0,
            unfinished: 0,
            marks: 0,
        },
        left_out: bytes % BLOCK_BYTES as u64 / WORD_LEN as u64,
    }
}

/// Does what [`encode_words`] does, with words in another form than a block file's own.
fn encode_other<S: Source, T: Sink>(
    source: &mut S,
    sink: &mut T,
    max_bytes: u64,
    output: Form,
    words: Words,
) -> Result<EncodedWords, RunError>
    requires source_room { S.failed source.old + 1 < 2 ^ 64 }
    requires sink_room { T.failed sink.old + 1 < 2 ^ 64 }
    requires limit { max_bytes ≤ 2 ^ 40 }
    ensures { InputRun (with_left_out words (encoded_other words output)) max_bytes
        (ends_of S.Source source.old source.new T.Sink sink.old sink.new) result }
{
    let file = BlockFile::new();
    let reader = WordReader {
        file,
        words,
        left: MOST_LEFT_OUT,
        has_begun: false,
    };
    let mut input = WordFile {
        reader,
        begun: [0; WORD_LEN],
        len: 0,
    };
    let mut encoder = Encoder {
        output,
        blocks: 0,
        cells: blank_cells(),
    };
    let bytes = convert(source, sink, max_bytes, &mut input, &mut encoder)?;
    Ok(answer_of(bytes))
}

/// Does what [`encode_words`] does.
fn encode_in<S: Source, T: Sink>(
    source: &mut S,
    sink: &mut T,
    max_bytes: u64,
    output: Form,
    words: Words,
) -> Result<EncodedWords, RunError>
    requires source_room { S.failed source.old + 1 < 2 ^ 64 }
    requires sink_room { T.failed sink.old + 1 < 2 ^ 64 }
    requires limit { max_bytes ≤ 2 ^ 40 }
    ensures { InputRun (told_words words output) max_bytes
        (ends_of S.Source source.old source.new T.Sink sink.old sink.new) result }
{
    match words {
        Words::Own => {
            let counts = encode(source, sink, max_bytes, output)?;
            Ok(EncodedWords {
                counts,
                left_out: 0,
            })
        }
        Words::Alsa => encode_other(source, sink, max_bytes, output, Words::Alsa),
        Words::Am824 => encode_other(source, sink, max_bytes, output, Words::Am824),
    }
}

/// Does what `encode` does, with a block file whose words are in this form. If it is another form
/// than a block file's own, words before the first block are left out, 383 at most. Errors then
/// count words from the first block on, the counts have only the bytes, and the number of words
/// left out is returned.
///
/// # Errors
/// Those of `encode`.
pub fn encode_words<S: Source, T: Sink>(
    source: &mut S,
    sink: &mut T,
    max_bytes: u64,
    output: Form,
    words: Words,
) -> Result<EncodedWords, RunError>
    requires source_room { S.failed source.old + 1 < 2 ^ 64 }
    requires sink_room { T.failed sink.old + 1 < 2 ^ 64 }
    requires limit { max_bytes ≤ 2 ^ 40 }

    // From what `decode_words` writes for cells it writes what `normalise` writes for them.
    ensures decoded { IfOk result (λ _. (c : List Level)
        → Told (S.given source.old) (S.given source.new) (words_file words (blocks c))
        → Grew (T.taken sink.old) (T.taken sink.new) (written output (normal c))) }

    // What it returns for every input, and what it has written then.
    ensures run { InputRun (told_words words output) max_bytes
        (ends_of S.Source source.old source.new T.Sink sink.old sink.new) result }
{
    encode_in(source, sink, max_bytes, output, words)
}
