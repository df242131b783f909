//! The texts of `--help` and `--version`.

/// What `--version` prints after the program's name.
pub const VERSION: &str = "0.1.0";

/// The texts of one command.
#[derive(Clone, Copy)]
pub struct Texts<'a> {
    /// One line, which is also in the list of commands.
    pub about: &'a str,
    /// The usage of the command, for its help and for usage errors.
    pub usage: &'a str,
    /// What it reads and writes, its exit statuses and examples.
    pub more: &'a str,
}

pub const PROGRAM: Texts<'static> = Texts {
    about: "An AES3 / IEC 60958 line codec, from standard input to standard output",
    usage: "aes3 COMMAND [OPTIONS] < INPUT > OUTPUT
       aes3 check FILE
       aes3 COMMAND --help
       aes3 --explain [NUMBER]",
    more: "A command reads standard input, or a file: `aes3 check FILE`, or `-i FILE` with any
command. It writes to standard output, or with `-o FILE` to a file. While the command
runs, that file is named FILE.part. If the command is refused, FILE.part is removed.
`aes3 COMMAND --help` says what a command reads and writes.

Forms of input and output:
  cells         a cell is half a time slot of the AES3 line: one level, 0 or 1. The
                first cell may be anywhere in a block, and the polarity may be either.
                As text, a cell is `0` or `1`. Line feeds, carriage returns and spaces
                are skipped. Packed, eight cells are an octet: the first is the highest
                bit, or with --lsb-first the lowest. One more octet at the end counts
                the unused cells of the octet before it. Raw octets (--raw-in) lack this
                last octet
  block         192 frames of two subframes: 24,576 cells. In a whole block preambles,
                biphase-mark code and parity are right. The level changes after its last
                cell, or the input ends there
  block file    the bits of blocks, without line code. A block has 1,536 bytes: 384
                words of 4 bytes, lowest byte first. A frame has a word for channel 1
                and then one for channel 2. Bit N of a word is time slot N. Bits 0 to 3
                are zero, 4 to 27 are the sample, 28 is V, 29 U, 30 C, 31 even parity.
                With --words alsa bits 0 to 3 have the preamble's code, as in ALSA's
                IEC958_SUBFRAME_LE. With --words am824 the words are AM824 words

Exit status:
  0  done, or help or the version was asked for
  1  `check`, `watch` or `info` is done and found faults
  2  usage error; standard error says why
  3  refused: an error stopped the command. Standard error has the line
     `aes3: refused NUMBER at PLACE`, or the same without a place

A refusal is an error with a number from 1 to 15. PLACE says where it is: mostly it is
the number of a byte, word, octet or cell, counted from 0. For each refusal,
`aes3 --explain` prints what was wrong, what PLACE is, and what to do. With a NUMBER it
prints only that refusal.

Examples, three tasks with examples/speech.block of the sources:
  Write the cells of a block file, and check them:
    aes3 encode < speech.block > line.txt
    aes3 check < line.txt | sed -n 1,3p
  Damage a cell, print the fault, and write the whole blocks in two forms:
    sed '48200s/^1/0/' line.txt | tail -c +12538 > damaged.txt
    aes3 check < damaged.txt | grep -v whole
    aes3 normal < damaged.txt > clean.txt
    aes3 decode < damaged.txt > clean.block
  Print the channel status, and write another for channel 1:
    aes3 cut 0 1 < line.txt | aes3 show
    status=85022c0000004a4154480000000000000000000000000000
    aes3 rewrite --status1 $status --mend-check < line.txt > new.txt",
};

pub const ENCODE: Texts<'static> = Texts {
    about: "Write the cells of a block file",
    usage: "aes3 encode [--packed-out [--lsb-first]] [--words own|alsa|am824] [-i FILE] > CELLS",
    more: "Reads a block file: 1,536 bytes a block, as 384 words of 4 bytes, lowest byte first.
Writes the cells of its blocks, one block after the other, in normal polarity: each
preamble begins with 111. As text, an output line has 64 cells, which are a subframe.
With --words alsa the words are ALSA's IEC958_SUBFRAME_LE: bits 0 to 3 have the code of
the preamble, 8 for Z, 2 for X, 4 for Y, or are zero. With --words am824 they are AM824
words (IEC 61883-6, SMPTE ST 2110-31), highest byte first. Words in these two forms may
begin inside a block. Then the words with the code of X or Y before the first block are
left out, at most 383. A refusal counts words from the first word after these.

Exit status: 0 done; 3 refused: 2 the file ends inside a block, 3 a word has bits 0 to 3
that are not zero, or a code that is wrong at its place, 4 a word has the wrong parity;
or as for every command.

Examples:
    aes3 encode < speech.block > line.txt
    aes3 encode < speech.block | aes3 decode --words alsa > speech.alsa
    aes3 encode --words alsa < speech.alsa | aes3 decode | cmp - speech.block
    aes3 encode --packed-out < speech.block | wc -c",
};

pub const DECODE: Texts<'static> = Texts {
    about: "Write the whole blocks as a block file",
    usage: "aes3 decode [OPTIONS] [FILE] > BLOCKFILE",
    more: "Reads cells. They may begin anywhere, in either polarity.
Writes the whole blocks as a block file, 1,536 bytes each. Cut and damaged blocks are
left out without a message; `aes3 check --gaps` reports them. With --words alsa or am824
the words have that form, as `aes3 encode` reads them.

Exit status: 0 done, also if no block was found; 3 refused: 1 a byte is not a cell, 10
packed cells end wrongly; or as for every command.

Examples:
    aes3 decode < line.txt > line.block
    aes3 decode --words am824 < line.txt > line.am824
    aes3 encode --packed-out < speech.block | aes3 decode --packed-in | cmp - speech.block
    aes3 encode --packed-out < speech.block | head -c -1 | aes3 decode --raw-in | cmp - speech.block",
};

pub const TO_PCM: Texts<'static> = Texts {
    about: "Write the samples of the whole blocks",
    usage: "aes3 to-pcm [OPTIONS] [FILE] > PCM",
    more: "Reads cells. They may begin anywhere, in either polarity.
Writes the samples of the whole blocks: for each frame, channel 1 and then channel 2.
The lowest byte of a sample is first. --pcm is the form of a sample, s32 if not given:
  s32      4 bytes. The highest 24 bits are the sample (S32LE: `ffmpeg -f s32le`,
           `sox -t raw -e signed -b 32 -L`, ALSA's S32_LE)
  s24      3 bytes (`ffmpeg -f s24le`, ALSA's S24_3LE)
  s24in32  4 bytes. The lowest 24 bits are the sample, its sign above (ALSA's S24_LE)
  s16      2 bytes. The lowest 8 of the sample's 24 bits are dropped (`ffmpeg -f s16le`,
           ALSA's S16_LE)

V, U and C are left out. Cut and damaged blocks are left out without a message;
`aes3 check --gaps` reports them.

With --valid, a sample that is not valid (its validity bit is 1) is written as zero.
With --fill the samples keep their time. Gaps between whole blocks are filled with
frames of zeros (`zero`) or with copies of the last frame before the gap (`hold`). So
each block is within half a frame of its time in the input, counted from the first
block. At the end standard error has the number of filled frames, as
`aes3: filled 192 frames`.
With --marked too, blocks whose only errors are parity errors are also written. There,
a sample whose subframe has a parity error is filled in the same way.
With --exact, a sample that would lose bits is refusal 13; PLACE is where its block
begins. Only s16 can lose bits. That block and all blocks after it are not written. The
refusal is reported at the end of the input.

Exit status: 0 done, also if no block was found; 3 refused: 1 a byte is not a cell, 10
packed cells end wrongly, 13 with --exact a block would lose bits; or as for every
command.

Examples:
    aes3 to-pcm < line.txt > line.s32
    aes3 to-pcm --valid < line.txt | cmp - line.s32
    aes3 to-pcm --fill hold < line.txt | cmp - line.s32
    aes3 to-pcm --fill hold --marked < line.txt | cmp - line.s32
    aes3 to-pcm --pcm s24 < line.txt > line.s24
    aes3 to-pcm < line.txt | sox -t raw -r 48000 -e signed -b 32 -c 2 -L - -b 24 line.wav",
};

pub const FROM_PCM: Texts<'static> = Texts {
    about: "Write a block file from samples",
    usage: "aes3 from-pcm [OPTIONS] [FILE] > BLOCKFILE",
    more: "Reads samples as `aes3 to-pcm` writes them. Each frame has channel 1 and then channel 2,
4 bytes each, lowest first (S32LE: `ffmpeg -f s32le`, `sox -t raw -e signed -b 32 -L`,
ALSA's S32_LE). The 24 highest bits are the sample. The lowest 8 are dropped; with
--exact they have to be zero. With --pcm s24, s24in32 or s16 the samples have that form,
as `aes3 to-pcm` writes it. Then --exact rejects no sample. The highest byte of s24in32
is ignored, and the 8 bits that s16 lacks are zero. The last block is filled up with
samples of zero.
A sound file is rejected by its first 12 bytes: WAV, AIFF, Wave64, FLAC, CAF, Ogg, MP3
after an ID3v2 tag, AU, MPEG-4. `aes3 from-wav` reads a WAV file.
`sox FILE -t s32 -c 2 -` gives the samples of each of these but MPEG-4.

Writes a block file. V and U are 0. Options set the channel status as in `aes3 rewrite`.
Without them it is a consumer status with no copyright, no sampling frequency, and words
of at most 24 bits. --rate HZ sets the sampling frequency of both channels after all
other fields, as 48000 or 48k. With --exact, a setting that the status can't take is
refused before anything is read. With --words alsa or am824 the words of the block file
have that form, as `aes3 encode` reads them.

Exit status: 0 done; 3 refused: 9 a status is not 48 hexadecimal digits, 13 with --exact
the status can't take a setting (with 9 and 13 nothing is read), 2 the samples end
inside a frame, 11 with --exact a sample has more than 24 bits, 12 the input is a sound
file; or as for every command.

Examples:
    aes3 from-pcm --preset consumer --rate 48k < line.s32 > consumer.block
    aes3 from-pcm --preset professional --rate 48k --set origin=JATH < line.s32 > pro.block
    aes3 from-pcm --exact < line.s32 | aes3 encode | aes3 to-pcm | cmp - line.s32
    aes3 from-pcm --pcm s24 < line.s24 | aes3 encode | aes3 to-pcm | cmp - line.s32
    status=85022c0000004a4154480000000000000000000000000000
    aes3 from-pcm --status1 $status --status2 $status --mend-check < line.s32 > new.block",
};

pub const TO_WAV: Texts<'static> = Texts {
    about: "Write the samples of the whole blocks as a WAV file",
    usage: "aes3 to-wav [OPTIONS] [FILE] > WAV",
    more: "Reads cells. They may begin anywhere, in either polarity.
Writes a WAV file of two channels with the samples of the whole blocks. --bits 16, 24 or
32 writes them as `aes3 to-pcm` does with --pcm s16, s24 or s32. Without --bits the
samples have 24 bits. The header is written with the first block. It says that the
lengths are not known, so programs read up to the end of the file. With -o FILE the
header has the lengths. From 4 GiB on the file is RF64.
The sampling frequency in the header is that of --rate. Without --rate it is the one
that the status of channel 1 names in the first block. If that names none, it is 48,000
Hz, and standard error says so. Cut and damaged blocks are left out without a message;
`aes3 check --gaps` reports them.

--valid, --fill, --marked and --exact do what they do in `aes3 to-pcm`.
With --valid, a sample that is not valid (its validity bit is 1) is written as zero.
With --fill the samples keep their time. Gaps between whole blocks are filled with
frames of zeros (`zero`) or with copies of the last frame before the gap (`hold`). So
each block is within half a frame of its time in the input, counted from the first
block. At the end standard error has the number of filled frames, as
`aes3: filled 192 frames`.
With --marked too, blocks whose only errors are parity errors are also written. There,
a sample whose subframe has a parity error is filled in the same way. Such a block names
no sampling frequency. If it comes first and --rate is not given, the header says 48,000
Hz.
With --exact, a sample that would lose bits is refusal 13; PLACE is where its block
begins. Only --bits 16 can lose bits. That block and all blocks after it are not
written. The refusal is reported at the end of the input.

Exit status: 0 done, also if no block was found; 3 refused: 1 a byte is not a cell, 10
packed cells end wrongly, 13 with --exact a block would lose bits; or as for every
command.

Examples:
    aes3 to-wav < line.txt > line.wav
    aes3 to-wav --fill hold < line.txt > line.wav
    aes3 to-wav --bits 16 --rate 48000 < line.txt > small.wav
    aes3 encode < speech.block | aes3 to-wav | aes3 from-wav | aes3 encode | aes3 to-wav | cmp - line.wav",
};

pub const FROM_WAV: Texts<'static> = Texts {
    about: "Write a block file from a WAV file",
    usage: "aes3 from-wav [OPTIONS] [FILE] > BLOCKFILE",
    more: "Reads a WAV file of PCM samples of 8, 16, 20, 24 or 32 bits: RIFF, RF64 or BW64, also
with lengths that are not known. Floating-point and compressed samples are rejected.

Writes a block file of two channels: those of --channels, counted from 1, or else the
first two. If the file has only one channel, both channels get its samples. With
--mono first, channel 1 gets them and channel 2 has zeros. Use only one of --channels
and --mono. The highest bit of a sample becomes the highest of 24 bits. The lowest 8 of
32 bits are dropped; with --exact they have to be zero, and bits that the header calls
unused are read too. The last block is filled up with samples of zero. What follows the
samples in the file is left out.

V and U are 0. The channel status has what the header says: linear PCM, the sampling
frequency and the word length. It is consumer status, unless --use professional is
given. --preset, --status1 and --status2 give another status, without what
the header says. --set, --set1, --set2, --rate and --mend-check change the status as in
`aes3 from-pcm`. With --words alsa or am824 the words of the block file have that form,
as `aes3 encode` reads them.

At the end standard error says what of the header the status has no code for, and lists
the settings that it could not take. If the file is cut short, it says how many bytes of
samples are missing.

Exit status: 0 done; 3 refused: 9 a status is not 48 hexadecimal digits, and nothing is
read, 14 the header is wrong or of another format, 15 the file has no such channel, 2
the samples end inside a frame, 11 with --exact a sample has more than 24 bits, 12 the
samples begin with the header of a sound file; or as for every command.

Examples:
    aes3 from-wav < line.wav > line.block
    aes3 from-wav --use professional --set origin=JATH < line.wav > pro.block
    aes3 from-wav --channels 2,1 < line.wav | aes3 encode > swapped.txt",
};

pub const NORMAL: Texts<'static> = Texts {
    about: "Write the cells of the whole blocks, in normal polarity",
    usage: "aes3 normal [--packed-in|--raw-in] [--packed-out] [--lsb-first] [FILE] > CELLS",
    more: "Reads cells. They may begin anywhere, in either polarity.
Writes the cells of the whole blocks, one block after the other, in normal polarity:
each preamble begins with 111. As text, an output line has 64 cells, which are a
subframe. Cut and damaged blocks are left out without a message; `aes3 check --gaps`
reports them.

Exit status: 0 done, also if no block was found; 3 refused: 1 a byte is not a cell, 10
packed cells end wrongly; or as for every command.

Examples:
    tr 01 10 < line.txt | aes3 normal > same.txt
    aes3 normal --packed-out < line.txt > line.packed
    aes3 normal --packed-out --lsb-first < line.txt | aes3 normal --packed-in --lsb-first > same.txt",
};

pub const CHECK: Texts<'static> = Texts {
    about: "Print each whole block and each fault",
    usage: "aes3 check [--packed-in|--raw-in] [--lsb-first] [--faults] [--gaps] [FILE]",
    more: "Reads cells. They may begin anywhere, in either polarity.
Prints an output line for each preamble Z, with which a block begins. P and C are the
numbers of cells, counted from 0. L is the level before cell P, 0 or 1:
  whole at P before L           a whole block begins at cell P
  marked at P before L wrong N  the block at P has parity errors in N subframes, and
                                nothing else is wrong with it
  fault at P cell C preamble    the block at P is damaged: cell C does not match the
                                preamble that is expected there
  fault at P cell C biphase     the block at P is damaged: the level does not change at
                                cell C, where a time slot begins
  fault at P cell C unclosed    the block at P is damaged: the level does not change at
                                cell C, right after its last cell
  unfinished at P cells N       the block at P has no fault, but the input ends after N
                                of its cells
A block whose first preamble is damaged gets no output line, and neither do cells
outside of blocks. --gaps reports both. With --faults the `whole` lines are left out.
With --gaps each cell lies in a `whole` block or in one gap:
  gap at P cells N              the N cells from P on are in no whole block. N is at
                                most 24,576, a block length
The `gap` line comes after the output lines of places in the gap. It is printed before
the next line, and at the latest two block lengths after P. So a loss of signal is
reported while it lasts. A gap of 24,576 cells is a fault, and so is each gap between
two whole blocks. A shorter gap before the first or after the last whole block is no
fault: the input is cut there.

Exit status: 0 no fault; 1 there are `marked` or `fault` lines, or gaps that are faults;
3 refused: 1 a byte is not a cell, 10 packed cells end wrongly; or as for every command.

Examples:
    aes3 check < line.txt | sed -n 1,3p
    aes3 encode < speech.block | sed '48200s/^1/0/' | aes3 check | grep -v whole",
};

pub const SHOW: Texts<'static> = Texts {
    about: "Print the channel status of each whole block",
    usage: "aes3 show [--packed-in|--raw-in] [--lsb-first] [--changes] [--at|--more|--names] [FILE]",
    more: "Reads cells. They may begin anywhere, in either polarity.
Prints two output lines for each whole block: channel 1 and then channel 2. A line has
`block=N channel=C`, with N counted from 0, then `consumer` or `professional`, then each
field as `name=value`. A code that has no word is printed as `code` and its number.
In professional status, `check` says whether byte 23 is the right check byte: `good`,
`bad`, or `absent` if it is zero and should not be.
With --changes a channel's line is printed for the first block, and then only if its
status differs from that in the block before.
With --at each line ends with ` at=P`: the block begins at cell P, counted from 0. With
--more it ends with ` v=N u=N at=P`: how many of the channel's 192 validity bits are 1,
and how many of its user bits. With --names it ends with the meanings of codes that are
printed as numbers, each as ` NAME=WORD`. In consumer status these are `category`,
`rate` and `original`. In professional status they are `mode`, and `rate` if byte 4 has
it, as 96000.

Exit status: 0 done, also if no block was found; 3 refused: 1 a byte is not a cell, 10
packed cells end wrongly; or as for every command.

Examples:
    aes3 cut 0 1 < line.txt | aes3 show
    aes3 show < line.txt | grep -c rate=48000
    aes3 show --changes --at < line.txt
    aes3 show --more < line.txt | grep -c ' v=0 '
    aes3 show --names < line.txt | sed -n 1p",
};

pub const WATCH: Texts<'static> = Texts {
    about: "Print where the AES3 line locks, is lost, comes back, slips or changes",
    usage: "aes3 watch [OPTIONS] [FILE]",
    more: "Reads cells as long as they come. They may begin anywhere, in either polarity.
Prints an output line only when something changes. P is the number of a cell, counted
from 0:
  locked at P before L   the first whole block begins at cell P. The level before it is
                         L, 0 or 1
  lost at P              from P on there is no whole block for at least a block length
  back at P lost N       a whole block begins at P, the first after N lost cells
  slipped at P cells N   a whole block begins at P, N cells after the end of the one
                         before it. N is less than a block length: cells were lost or
                         doubled
  status at P channel C HEX48  in the block at P the status of channel C is HEX48. In
                         the whole block before it was another
  validity at P channel C V  in the block at P the validity bits of channel C are V:
                         `clear` (all 0), `set` (all 1) or `mixed`. In the whole block
                         before they were not
  end at P locked        the cells end at P, less than a block length after a whole
                         block
  end at P lost          the cells end at P in any other case
`lost` is printed when two block lengths of cells have come from P on. It comes sooner
if `check` has a line for a place after the first of them. `check --gaps` prints the
same cells block by block.
With --rate HZ, ` time S` follows P: S is the time of cell P in seconds with three
places, at 128 times HZ cells a second. With --json each output line is a JSON object.
The first word is the value of `event`. A value without a name at the end of a line is
named `status`, `validity` or `state`. The other names are as above.
With --every CELLS, at most 2^40, a line of sums is also printed after each CELLS cells,
and at the end for the rest. With --every-seconds N, at most 3,600, it is printed after
each N seconds; this needs --rate HZ:
  sum from P to Q whole N marked N fault N preamble N biphase N unclosed N lost N
      invalid1 N invalid2 N changes N
This is one output line. It is about the cells P to Q - 1. `whole`, `marked` and `fault`
count what `check` prints of blocks that begin there. `preamble`, `biphase` and
`unclosed` count the faults by cause. `lost` counts the cells in gaps that are faults.
`invalid1` counts the subframes of channel 1 in whole blocks whose V is 1, `invalid2`
those of channel 2. `changes` counts the lines `status` and `validity`.

Exit status: 0 no fault; 1 `check` has `marked` or `fault` lines, or there is `lost` or
`slipped`; 3 refused: 1 a byte is not a cell, 10 packed cells end wrongly; or as for
every command.

Examples:
    aes3 watch < line.txt
    aes3 encode < speech.block | sed '48200s/^1/0/' | aes3 watch | grep lost
    aes3 watch --json --rate 48000 < line.txt
    aes3 watch --rate 48000 --every-seconds 1 < line.txt",
};

pub const INFO: Texts<'static> = Texts {
    about: "Print one page about a recording: faults, rate, length, status and level",
    usage: "aes3 info [--packed-in|--raw-in] [--lsb-first] [--json] [FILE]",
    more: "Reads cells to their end. They may begin anywhere, in either polarity. Without
--packed-in and --raw-in the first octets decide the form: text, or else packed cells if
they are no known kind of file.
Prints a page at the end, with `NAME VALUE` on each output line:
  cells                  how many cells the input has
  rate                   the sampling frequency in Hz that the status of channel 1 names
                         in the first whole block, or `unknown`
  seconds                how long the cells last at that frequency, or `unknown`
  whole, marked          how many blocks `check` prints as `whole` and as `marked`
  fault                  how many `fault` lines `check` prints
  preamble, biphase, unclosed  how many of these have this cause
  unfinished             how many blocks the end of the input cuts
  gaps                   how many gaps of `check --gaps` are faults
  lost                   the cells in these gaps
  cut                    the cells in the other gaps, where the recording is cut
Then come these lines for channel 1 and for channel 2. The name ends with the channel's
number:
  status1                the status in the first whole block, as `show` prints it
  changes1               how many whole blocks have another status than the whole block
                         before
  invalid1               how many subframes have V 1
  peak1, peak_dbfs1      the greatest magnitude of a sample of 24 bits; the same in dBFS
  rms_dbfs1              the RMS of the samples in dBFS. A sine of full scale has -3.0
  silent1                `yes` if each sample is zero
The samples are those of all whole blocks. A level without power is `-inf`. With --json
the page is one JSON object with the same names. There a status is 48 hexadecimal
digits, and `unknown` and `-inf` are `null`.

Exit status: 0 no fault; 1 there are marked blocks, faults, or gaps that are faults; 3
refused: 1 a byte is not a cell, 10 packed cells end wrongly; or as for every command.
After a refusal nothing is written.

Examples:
    aes3 info line.txt
    aes3 encode < speech.block | sed '48200s/^1/0/' | aes3 info | grep lost
    aes3 info --json line.txt",
};

pub const SCAN: Texts<'static> = Texts {
    about: "Print each preamble",
    usage: "aes3 scan [--packed-in|--raw-in] [--lsb-first] [FILE]",
    more: "Reads cells. They may begin anywhere, in either polarity.
Prints an output line for each place that has the eight cells of a preamble, whether a
block is there or not:
  mark M at P before L  preamble M begins at cell P, counted from 0, after level L. Z
                        begins a block. X begins channel 1 of its other frames, Y
                        channel 2

Exit status: 0 done, also if there is no preamble; 3 refused: 1 a byte is not a cell, 10
packed cells end wrongly; or as for every command.

Examples:
    aes3 cut 0 1 < line.txt | aes3 scan | sed -n 1,3p
    aes3 scan < line.txt | grep -c 'mark Z'",
};

pub const CUT: Texts<'static> = Texts {
    about: "Write COUNT whole blocks, from number FROM on",
    usage: "aes3 cut [OPTIONS] [-i FILE] <FROM> <COUNT> > CELLS",
    more: "Reads cells as `aes3 normal` does, to their end.
Writes the cells of COUNT whole blocks in normal polarity, from number FROM on, counted
from 0. If there are fewer blocks, it writes those. A block lasts 192 frames, 4
milliseconds at 48 kHz.

Exit status: 0 done, also if no block was found; 3 refused: 1 a byte is not a cell, 10
packed cells end wrongly; or as for every command.

Examples:
    aes3 cut 0 1 < line.txt > first.txt
    aes3 cut 125 25 < line.txt | aes3 decode | wc -c",
};

pub const REWRITE: Texts<'static> = Texts {
    about: "Write the whole blocks with new channel status, V or U",
    usage: "aes3 rewrite [OPTIONS] [FILE] > CELLS",
    more: "Reads cells as `aes3 normal` does.
Writes what `normal` would write, with the channel status of each block set by the
options, in this order. First, --status1 or --status2 gives all 24 bytes of a channel:
HEX48 has 48 hexadecimal digits, byte 0 first. A channel without HEX48 gets the status
of --preset, if that is given. `consumer` is linear PCM, no copyright, words of 24 bits.
`professional` is linear PCM, no emphasis, two channels, words of 24 bits.

Then --set NAME=WORD sets a field of both channels. --set1 and --set2 set a field of
channel 1 or 2. The names and words are those that `aes3 show` prints, with --names too.
use=professional or use=consumer sets the use alone. The other bits stay and mean
something else: begin with --preset, --status1 or --status2. In professional status,
rate=22050, 24000, 88200, 96000, 176400 and 192000 leave the rate in byte 0: set
`rate=not-indicated` first. A channel has 32 settings at most: first those of --set,
then those of its own option, each in the order typed. origin=, destination=, local= and
time= come last.
A setting is skipped if its field belongs to the other use, or its word has no code. For
example, in consumer status word=24 has a code only after greatest=24. At the end
standard error lists the settings that no block took, those of --set as --set1 and
--set2. With --exact, a block that can't take all settings is refusal 13; PLACE is where
it begins. That block and all blocks after it are not written. The refusal is reported
at the end of the input.
If a field is set, or if --preset or --mend-check is given, byte 23 of each professional
status then becomes its check byte.

--valid1 0 and --valid2 0 set V of all subframes of a channel to 0: the samples are
valid. With 1 they are not valid. --clear-user1 and --clear-user2 set U of all subframes
of a channel to 0. Without any option the blocks are unchanged.

Exit status: 0 done, also if no block was found; 3 refused: 9 a status is not 48
hexadecimal digits, and nothing is read, 1 a byte is not a cell, 10 packed cells end
wrongly, 13 with --exact a block can't take a setting; or as for every command.

Examples:
    aes3 rewrite --mend-check < line.txt > mended.txt
    aes3 rewrite --valid1 0 --valid2 0 --clear-user1 --clear-user2 < line.txt > clear.txt
    aes3 rewrite --set rate=48000 --set emphasis=none < line.txt > new.txt
    aes3 rewrite --set1 origin=JATH --set1 local=0 < line.txt > named.txt
    aes3 rewrite --preset professional --set rate=48000 < line.txt > pro.txt
    aes3 rewrite --status2 040000020b00000000000000000000000000000000000000 < line.txt > new.txt",
};

pub const TO_BITS: Texts<'static> = Texts {
    about: "Write the user, validity or status bits of a channel",
    usage: "aes3 to-bits [OPTIONS] <user|validity|status> <1|2> [FILE] > BITS",
    more: "Reads cells. They may begin anywhere, in either polarity.
Writes 24 bytes for each whole block: the 192 bits of one kind in the subframes of a
channel. `user` writes U, `validity` V, and `status` C, the channel status. The bit of
frame 0 is the lowest bit of the first byte. Cut and damaged blocks are left out without
a message; `aes3 check --gaps` reports them.

Exit status: 0 done, also if no block was found; 3 refused: 1 a byte is not a cell, 10
packed cells end wrongly; or as for every command.

Examples:
    aes3 to-bits user 1 < line.txt > user.bits
    aes3 to-bits status 2 < line.txt | wc -c",
};
