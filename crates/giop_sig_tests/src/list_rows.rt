//! Request lists and what is told of them: what a test expects, `|` and the list's text; `=` ends a row.

/// Lists that are refused, whatever the version: the line, and the word of the refusal.
pub static REFUSED: &[u8] = b"\
    1 syntax|\n=\
    2 syntax|1 ask\n\n=\
    2 syntax|1 ask\n\n2 nop\n=\
    1 syntax|1 ask\r\n=\
    1 syntax|01 ask\n=\
    1 syntax|00 ask\n=\
    1 syntax|4294967296 ask\n=\
    1 syntax|99999999999 ask\n=\
    1 syntax|18446744073709551617 ask\n=\
    1 syntax|-1 ask\n=\
    1 syntax|+1 ask\n=\
    1 syntax|1a ask\n=\
    1 syntax| 1 ask\n=\
    1 syntax| ask\n=\
    1 syntax|1  ask\n=\
    1 syntax|1 ask \n=\
    1 syntax|1\task\n=\
    1 syntax|1 \n=\
    1 syntax|1\n=\
    1 syntax|1 a\x7f\n=\
    2 syntax|1 ask\n2 \x80\n";

/// Lists that are read: an id, how many ids the list has, and the id's operation in a catalogue of `ask` and `nop`.
pub static READ: &[u8] = b"\
    0 0 none|=\
    1 2 0|1 ask\n1 ask\n2 nop\n2 ask\n=\
    2 2 none|1 ask\n1 ask\n2 nop\n2 ask\n=\
    3 2 none|1 ask\n1 ask\n2 nop\n2 ask\n=\
    1 1 0|1 ask=\
    0 1 1|0 nop\n=\
    4294967295 1 1|4294967295 nop\n=\
    7 1 none|7 gone\n=\
    7 1 none|7 gone\n7 ask\n=\
    7 1 none|7 ask\n7 gone\n=\
    7 1 none|7 gone\n7 lost\n=\
    7 1 none|7 ask\n7 nop\n7 ask\n=\
    7 2 0|7 ask\n8 nop\n7 ask\n=\
    7 1 none|7 Ask\n=\
    7 1 none|7 as\n=\
    7 1 none|7 !~\"\\\n";

/// Lists that only a catalogue of version 3 reads, where a line may have a third word: an id, how many ids the list has,
/// and the id's operation in the catalogue of `GETS`. With another version the first line is refused.
pub static THIRD_READ: &[u8] = b"\
    7 1 0|7 get IDL:A:1.0=\
    7 1 1|7 get IDL:B:1.0\n=\
    7 1 2|7 get IDL:C:1.0\n=\
    7 1 3|7 get IDL:X:1.0\n=\
    7 1 3|7 get idl:a:1.0\n=\
    7 1 0|7 get IDL:A:1.0\n7 get IDL:A:1.0\n=\
    7 1 3|7 get IDL:X:1.0\n7 get IDL:X:1.0\n=\
    7 1 none|7 get IDL:A:1.0\n7 get IDL:B:1.0\n=\
    7 1 none|7 get IDL:B:1.0\n7 get IDL:C:1.0\n=\
    7 1 none|7 get IDL:X:1.0\n7 get\n=\
    7 1 none|7 get IDL:X:1.0\n7 get IDL:Y:1.0\n=\
    7 1 none|7 get IDL:A:1.0\n7 get IDL:B:1.0\n7 get IDL:A:1.0\n=\
    7 2 0|7 get IDL:A:1.0\n8 get IDL:B:1.0\n=\
    8 2 1|7 get IDL:A:1.0\n8 get IDL:B:1.0\n=\
    7 2 2|7 get IDL:C:1.0\n9 nop !~\n7 get IDL:C:1.0=\
    7 1 4|7 put IDL:A:1.0\n=\
    7 1 none|7 put IDL:B:1.0\n=\
    7 1 none|7 put IDL:X:1.0\n=\
    7 1 5|7 nop IDL:A:1.0\n=\
    7 1 none|7 nop IDL:A:1.0\n7 nop\n=\
    7 1 none|7 gone IDL:A:1.0\n=\
    7 1 none|7 IDL:A:1.0 get\n";

/// Lists that are refused, though a line may have a third word.
pub static THIRD_REFUSED: &[u8] = b"\
    1 syntax|7 get A B=\
    1 syntax|7 get  A=\
    1 syntax|7 get =\
    1 syntax|7 get A =\
    1 syntax|7  A=\
    1 syntax|7 get\tA=\
    1 syntax|7 get A\r\n=\
    2 syntax|7 get A\n8 get A\x7f\n";
