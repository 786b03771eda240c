//! Texts and what a test expects of them. A row is what is expected, then `|`, then the text; `=` ends the row.

/// What a row expects, and its text.
pub fn row_of(row: &[u8]) -> (&[u8], &[u8]) {
    for bar in 0..row.len() {
        if row[bar] == b'|' {
            return (&row[..bar], &row[bar + 1..]);
        }
    }
    (row, b"")
}

/// The number at this index among numbers that are written with a space between them; 0 after the last one.
pub fn number_of(text: &[u8], place: usize) -> usize {
    let mut number = 0usize;
    let mut left = place;
    for octet in text {
        if *octet == b' ' {
            left = left.wrapping_sub(1);
        } else if left == 0 {
            let digit = usize::from(octet.saturating_sub(b'0'));
            number = number.saturating_mul(10).saturating_add(digit);
        }
    }
    number
}

/// Texts and the tokens that they are read as.
pub static READ: &[u8] = b"\
    |=\
    | \t\r\n=\
    |// a comment may end the text=\
    |//=\
    |//\n/////\n=\
    word a|a//b=\
    word a word c|a// b \" \x00\xff\nc=\
    word a word d|a // b\rc\n d=\
    word _1 word a1_B word Z|_1 a1_B Z=\
    number 0|0=\
    number 7 number 10|7 10=\
    number 18446744073709551615|18446744073709551615=\
    negative 18446744073709551615|-18446744073709551615=\
    negative 1 word a negative 20|-1 a-20=\
    number 1 negative 1|1-1=\
    id IDL:a//b:1.0 word x|\"IDL:a//b:1.0\"x=\
    id ! id ~|\"!\"\"~\"=\
    number 1 id # number 2|1\"#\"2=\
    mark { mark } mark ( mark ) mark < mark >|{}()<>=\
    mark [ mark ] mark , mark ; mark :|[],;:=\
    word case negative 1 mark : word default mark :|case -1:default:=\
    word struct word A mark { word long word x mark [ number 3 mark ] mark ; mark } mark ;|struct A{long x[3];};// end";

/// Texts in which something is no token, with the number of octets that are left from it on, and its line.
pub static REFUSED: &[u8] = b"\
    7 2|signatures 1;\nstruct A { long x[00]; };=\
    7 2|signatures 1;\nstruct A { long x[01]; };=\
    25 2|signatures 1;\nstruct A { long x[18446744073709551616]; };=\
    26 2|signatures 1;\nstruct A { long x[100000000000000000000]; };=\
    7 2|signatures 1;\nstruct A { long x[1a]; };=\
    7 2|signatures 1;\nstruct A { long x[-0]; };=\
    8 2|signatures 1;\nstruct A { long x[-01]; };=\
    8 2|signatures 1;\nstruct A { long x[- 1]; };=\
    8 2|signatures 1;\nstruct A { long x[-1a]; };=\
    33 2|signatures 1;\nunion U switch (short) { case -18446744073709551616: long a; };=\
    2 2|signatures 1;\nstruct A { long x; }; / =\
    1 2|signatures 1;\nstruct A { long x; };\x0b=\
    7 2|signatures 1;\nexception E \"\" { };=\
    10 2|signatures 1;\nexception E \"a b\" { };=\
    9 2|signatures 1;\nexception E \"a\n\" { };=\
    1 1|/=\
    1 1|a /=\
    1 1|-=\
    2 2|a\n-x=\
    1 1|\"=\
    2 1|\"a=\
    3 1|\"\x7f\"=\
    1 1|#=\
    2 1|a.b=\
    1 1|.=\
    1 1|'=\
    1 3|// c\n\n \x7f=\
    21 1|000000000000000000001=\
    2 1|1_=\
    2 1|+1";

/// The number of octets that are left at a place of a text, and the line of that place.
pub static LINES: &[u8] = b"\
    0 1|=\
    0 1| =\
    0 1|\n=\
    0 2|\n\n=\
    0 2|signatures 1;\nenum=\
    0 2|signatures 1;\nenum\n=\
    0 3|signatures 1;\nenum\n\n=\
    5 1|a\nb\nc=\
    4 1|a\nb\nc=\
    3 2|a\nb\nc=\
    2 2|a\nb\nc=\
    1 3|a\nb\nc=\
    1 1|a\rb";

/// The words that the grammar quotes, and two more that are reserved for later.
pub static RESERVED: &str =
    "signatures enum struct union switch case default true false exception operation void in out inout string Object sequence octet char boolean short ushort long ulong longlong ulonglong float double return encapsulation";

/// Words that are reserved only in files of version 3.
pub static LATER_RESERVED: &str = "any TypeCode wchar wstring fixed longdouble";

/// Words that can be names.
pub static FREE: &str = "Enum object bool enums e _enum returns";
