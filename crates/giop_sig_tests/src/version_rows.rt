//! Signature files of version 2, and their words in a file of version 1, as in `file_rows`.

/// Files that are accepted.
pub static ACCEPTED: &[u8] = b"\
    0 0 0 9|signatures 2;=\
    1 0 0 9|signatures 2;\nstruct A { long x[1]; };=\
    1 0 0 9|signatures 2;\nstruct A { encapsulation<long> e; };=\
    1 0 0 9|signatures 2;\nstruct A { encapsulation<octet> e[2]; };=\
    1 0 0 9|signatures 2;\nstruct A { encapsulation\n<\nlong // held\n> e; };=\
    1 0 0 9|signatures 2;\nstruct A { sequence<encapsulation<encapsulation<octet>>,2> e; };=\
    1 1 0 9|signatures 2;\nstruct P { octet a; ulonglong b; }; operation void enc(in encapsulation<P> e);=\
    0 1 0 9|signatures 2;\noperation encapsulation<Object> encapsulation(inout encapsulation<string<3>> e);=\
    2 0 0 9|signatures 2;\nenum E { a }; union U switch (E) { case a: encapsulation<E> e; };=\
    0 0 1 9|signatures 2;\nexception E \"r\" { encapsulation<sequence<octet>> e; };=\
    1 0 0 23|signatures 2;\nstruct A { encapsulation<encapsulation<encapsulation<encapsulation<encapsulation<encapsulation<encapsulation<encapsulation<encapsulation<encapsulation<encapsulation<encapsulation<encapsulation<encapsulation<encapsulation<encapsulation<encapsulation<encapsulation<encapsulation<encapsulation<encapsulation<long>>>>>>>>>>>>>>>>>>>>> e; };=\
    1 0 0 24|signatures 2;\nstruct A { encapsulation<encapsulation<encapsulation<encapsulation<encapsulation<encapsulation<encapsulation<encapsulation<encapsulation<encapsulation<encapsulation<encapsulation<encapsulation<encapsulation<encapsulation<encapsulation<encapsulation<encapsulation<encapsulation<encapsulation<encapsulation<encapsulation<long>>>>>>>>>>>>>>>>>>>>>> e; };=\
    1 0 0 24|signatures 2;\nstruct A { encapsulation<encapsulation<encapsulation<encapsulation<encapsulation<encapsulation<encapsulation<encapsulation<encapsulation<encapsulation<encapsulation<encapsulation<encapsulation<encapsulation<encapsulation<encapsulation<encapsulation<encapsulation<encapsulation<encapsulation<encapsulation<encapsulation<\nsequence<octet>>>>>>>>>>>>>>>>>>>>>>> e; };=\
    1 0 0 24|signatures 2;\nstruct A { encapsulation<sequence<encapsulation<sequence<encapsulation<sequence<encapsulation<sequence<encapsulation<sequence<encapsulation<sequence<encapsulation<sequence<encapsulation<sequence<encapsulation<sequence<encapsulation<sequence<encapsulation<sequence<long>>>>>>>>>>>>>>>>>>>>>> e; };";

/// Files that are refused.
pub static REFUSED: &[u8] = b"\
    2 unknown-type|signatures 2;\nexception E \"r\" { encapsulation<E1> e; };=\
    2 depth|signatures 2;\nstruct A { encapsulation<encapsulation<encapsulation<encapsulation<encapsulation<encapsulation<encapsulation<encapsulation<encapsulation<encapsulation<encapsulation<encapsulation<encapsulation<encapsulation<encapsulation<encapsulation<encapsulation<encapsulation<encapsulation<encapsulation<encapsulation<encapsulation<encapsulation<long>>>>>>>>>>>>>>>>>>>>>>> e; };=\
    2 depth|signatures 2;\nstruct A { encapsulation<encapsulation<encapsulation<encapsulation<encapsulation<encapsulation<encapsulation<encapsulation<encapsulation<encapsulation<encapsulation<encapsulation<encapsulation<encapsulation<encapsulation<encapsulation<encapsulation<encapsulation<encapsulation<encapsulation<encapsulation<encapsulation<encapsulation<octet>>>>>>>>>>>>>>>>>>>>>>> e; };=\
    2 depth|signatures 2;\nstruct A { sequence<encapsulation<sequence<encapsulation<sequence<encapsulation<sequence<encapsulation<sequence<encapsulation<sequence<encapsulation<sequence<encapsulation<sequence<encapsulation<sequence<encapsulation<sequence<encapsulation<sequence<encapsulation<sequence<long>>>>>>>>>>>>>>>>>>>>>>> e; };=\
    4 depth|signatures 2;\noperation\nsequence<sequence<sequence<sequence<sequence<sequence<sequence<sequence<sequence<sequence<sequence<sequence<sequence<sequence<sequence<sequence<sequence<sequence<sequence<sequence<sequence<sequence<sequence<sequence<sequence<long>>>>>>>>>>>>>>>>>>>>>>>>>\no(in\nencapsulation<long> x);=\
    5 unknown-type|signatures 2;\noperation\nsequence<sequence<sequence<sequence<sequence<sequence<sequence<sequence<sequence<sequence<sequence<sequence<sequence<sequence<sequence<sequence<sequence<sequence<sequence<sequence<sequence<sequence<sequence<sequence<sequence<long>>>>>>>>>>>>>>>>>>>>>>>>>\no(in\nencapsulation<B> x);=\
    3 depth|signatures 2;\nstruct\nA { encapsulation<encapsulation<encapsulation<encapsulation<encapsulation<encapsulation<encapsulation<encapsulation<encapsulation<encapsulation<encapsulation<encapsulation<encapsulation<encapsulation<encapsulation<encapsulation<encapsulation<encapsulation<encapsulation<encapsulation<encapsulation<encapsulation<encapsulation<encapsulation<encapsulation<encapsulation<encapsulation<encapsulation<encapsulation<encapsulation<encapsulation<encapsulation<encapsulation<encapsulation<encapsulation<encapsulation<encapsulation<encapsulation<encapsulation<encapsulation<\nlong>>>>>>>>>>>>>>>>>>>>>>>>>>>>>>>>>>>>>>>> e; };=\
    2 syntax|signatures 1;\nstruct A { encapsulation<long> e; };=\
    3 syntax|signatures 1;\noperation void enc(in\nencapsulation<long> e);=\
    3 syntax|signatures 1;\nstruct A { sequence<\nencapsulation<long>> e; };=\
    2 syntax|signatures 1;\noperation encapsulation<long> f();=\
    3 syntax|signatures 1;\nunion U switch (\nencapsulation<short>) { case 1: long a; };=\
    2 syntax|signatures 2;\nstruct A { encapsulation<long,2> e; };=\
    2 syntax|signatures 2;\nstruct A { encapsulation e; };=\
    2 syntax|signatures 2;\nstruct A { encapsulation<> e; };=\
    2 syntax|signatures 2;\nstruct A { encapsulation<long e; };=\
    3 syntax|signatures 2;\nstruct A { encapsulation<\nvoid> e; };=\
    3 unknown-type|signatures 2;\nstruct A { encapsulation<\nB> e; };=\
    3 unknown-type|signatures 2;\nstruct A { encapsulation<\nA> e; };=\
    2 empty|signatures 2;\nstruct A { encapsulation<string<0>> e; };=\
    3 duplicate|signatures 2;\nstruct A { encapsulation<long> e;\nlong e; };=\
    2 label|signatures 2;\nunion U switch (encapsulation<short>) { case 1: long a; };=\
    2 syntax|signatures 2;\nstruct encapsulation { long a; };=\
    2 syntax|signatures 2;\nstruct A { long encapsulation; };=\
    1 syntax|signatures 3;=\
    1 syntax|signatures 0;=\
    1 token|signatures 02;=\
    1 syntax|signatures 2=\
    1 syntax|signatures 22;=\
    1 syntax|signatures 18446744073709551615;";
