//! The texts of the program's help.

use aes3_cli::help::Texts;

/// The texts of the program.
pub const PROGRAM: Texts<'static> = Texts {
    about: "The cells of an AES3 / IEC 60958 line, from the samples of a capture",
    usage: "aes3-cells [OPTIONS] [FILE] > CELLS",
    more: "Reads the samples of a logic analyser or of a pin. One bit of a sample is the AES3 line.
Writes the cells of this line, as `aes3` reads them. A cell is half a time slot: one
level, 0 or 1. A sample has one octet, or with --unit 2 two octets, the lower one first.

Without --bit it takes the lowest bit that has an AES3 line in the first 1,048,576
octets. If no bit has one, it takes bit 0. A cell has 2.015625 to 8000 samples. The
program measures how many, and measures again after each stretch without an AES3 line.
If the line changes to a half, a third or a quarter of its rate without such a stretch,
its cells from there on are wrong, and `aes3 check --gaps` prints gaps. If that lasts
for 8,192 cells and for 4,194,304 samples, an output line at the end warns of it.
With --rate and --at a cell has --rate / (128 * --at) samples. HZ is a number such as
24000000, 24M, 24000k or 44.1k.

At the end, standard error has an output line about what was found:
  - how many samples a cell has, and with --rate the AES3 line's sampling frequency
  - how far the edges are from their expected places, in cells
  - how many stretches had no signal, and the sample where the last of them begins
With --tell this output line also comes after every --rate samples, and when the signal
stops. Another output line warns if cells are likely to be wrong.

With --places it writes no cells. It copies a report of `aes3` from standard input to
standard output. To each report line that names a cell it adds ` sample N`: the cell
begins at sample N of FILE. With --rate it also adds ` seconds S`, the time of that
sample. Example:
  aes3 check --gaps line.txt | aes3-cells --rate 24M --places capture.bin

With --picture an SVG picture shows how far rising and falling edges are from their
expected places, with AES3's jitter tolerance. It also shows the length of a cell over
time, and where there was no signal. If the picture can't be written, the cells are
written all the same.

A file of another kind is rejected by its first bytes: a sound file, VCD, CSV, a session
of sigrok, a compressed file, a program, or cells. `man aes3-cells` has a command for
each kind of capture file.

Exit status:
  0  done
  1  no AES3 line was found, or the input is not a capture. With --rate and --at the
     cells are written even if no AES3 line was found. With --places: a cell was not
     found
  2  usage error; standard error says why
  3  the input can't be read, or the output or the picture can't be written
",
};
