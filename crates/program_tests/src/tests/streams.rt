//! What comes of a run whose input, output, words or keys fail.

use super::wrong_rows;
use std::test::Fail;

#[test]
fn streams_may_fail(rt: HostRuntime) -> Result<(), Fail> {
    assert_eq!(rt; wrong_rows(&rt, TABLE)?.as_str(), "");
    Ok(())
}

const TABLE: &str = "\
# a read that fails ends the run before any line
$ reply
% 1 read
req 00000000
! reading the input: broken pipe

# a read that fails ends the run before any frame
$ frame
% 1 read
00000000
! reading the input: broken pipe

# a read for which there is no memory ends the run before any frame
$ frame
% 1 memory
00000000
! out of memory

# words that can't be read are a bad command line
% 2 words
00000000
! reading the command line: broken pipe

# requests want random keys
$ reply
% 1 keys
req 00000000
! drawing random keys: broken pipe

# frames want no keys
$ frame
% 0 keys
00000000 => fault 1 1

# lines may come in parts
$ reply
% 0 drops
req 00000000 => close
req 00000000 => close

# frames may come in parts
$ frame
% 0 drops
00000000 => fault 1 1
00000000 => fault 1 1

# lines without end are not begun
$ reply
% 1 end
req 00000000
! the input is longer than 67108864 bytes

# frames without end are not begun
$ frame
% 1 end
00000000
! the input is longer than 67108864 bytes

# a write that fails ends the run
$ reply
% 1 nothing 10
req 00000000 => close
req 00000000 => close
! writing the output: write zero

# a write that fails before a bad line ends the run
$ reply
% 1 nothing 10
req 00000000 => close
req 00000000 => close
tock
! writing the output: write zero

# a write that fails between two frames ends the run
$ frame
% 1 nothing 10
00000000 => fault 1 1
00000000 => fault 1 1
! writing the output: write zero

# a write that fails at a frame before a bad line ends the run
$ frame
% 1 nothing 10
00 => fault size
00000000 => fault 1 1
tock
! writing the output: write zero

# many lines are written in pieces
$ frame
% 1 nothing 69999 7000
00000000 => fault 1 1
! writing the output: write zero";
