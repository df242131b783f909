//! The texts of the program's help.

use aes3_cli::help::Texts;

/// The texts of the program.
pub const PROGRAM: Texts<'static> = Texts {
    about: "The cells of an AES3 / IEC 60958 line, with errors inserted on purpose",
    usage: "aes3-spoil [OPTIONS] [FILE] > CELLS",
    more: "Reads cells, which may begin anywhere, in either polarity. Writes them again with the
errors that the options insert, and no others. So you know the place of each fault when
you test a receiver. Each option with P may be repeated.

P is the number of a cell of the input, counted from 0:
  --cell, --invert, --drop, --double  the cell of the error
  --parity, --biphase, --preamble     the first cell of a subframe, as `aes3 scan`
                                      prints it
  --check-byte                        the first cell of a block, as `aes3 check` prints
                                      it
If the input begins with a block, subframe N begins at cell 64 N, and block N at cell
24576 N. The program does not check that a subframe or a block begins at P. An error
after the end of the input does nothing.

These options change a subframe or a block:
  --parity      inverts the subframe's last cell and all cells after it. So its parity
                bit is wrong, as by a sender's mistake, and all that follows is valid
  --biphase     inverts the first cell of time slot SLOT, 4 to 31. So the level does not
                change where the slot begins
  --preamble    inverts the third cell of its preamble
  --check-byte  inverts the second cell of slot 30 and the first of slot 31, in frame
                184 of channel 1. This changes a status bit and keeps the parity right,
                so the block stays whole. A professional check byte that was right
                becomes wrong

--every N:KIND inserts an error at cells N, 2 N, 3 N and so on. KIND is `cell`,
`invert`, `drop` or `double`. It may be given once, beside 64 other errors. --check-byte
counts as two of these.

Each P is a place in the input as it was before any error, so an error does not move the
others. A cell that is inverted twice is unchanged. A cell that is dropped is not
doubled.

Cells are text or packed (`aes3 --help`). As text, an output line has 64 cells, and the
last one has the rest. They are written 64 at a time, as they come.

Exit status:
  0  done
  2  usage error; standard error says why
  3  refused: an error stopped the program. Standard error has the line
     `aes3-spoil: refused NUMBER at PLACE`, or the same without a place. NUMBER is 1 a
     byte is not a cell, 5 the input can't be read, 6 the output can't be written, 7 the
     input is too long, 8 memory was refused, 10 packed cells end wrongly.
     `aes3 --explain NUMBER` says more

Examples:
    aes3-spoil --biphase 64:12 < line.txt | aes3 check --faults
    aes3-spoil --parity 24576 --drop 61440 line.txt | aes3 check --gaps
    aes3-spoil --every 245760:cell --packed-in --packed-out < line.cells > worn.cells
",
};
