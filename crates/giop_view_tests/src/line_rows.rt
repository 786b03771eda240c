//! Lines and what they are: the numbers of the stream and the message, and which line it is, or `none`.

/// A row a line: what it is, and the line after ` | `.
pub const ROWS: &str = "\
0 1 start | m1 start 1.0 little Request size 85\n\
1 2 start | s1 m2 start 1.2 big Reply size 4294967295 more\n\
0 1 start | m1 start 1.2 big 8 size 0\n\
0 1 start | m1 start 1.2 big 255 size 0\n\
none | m1 start 1.2 big 256 size 0\n\
none | m1 start 1.3 big Reply size 0\n\
none | m1 start 1.2 middle Reply size 0\n\
none | m1 start 1.2 big Reply size 4294967296\n\
none | m1 start 1.2 big Reply size 01\n\
none | m1 start 1.2 big reply size 1\n\
0 1 end | m1 end\n\
1 2 end | s1 m2 end\n\
none | m0 end\n\
none | m01 end\n\
0 18446744073709551615 end | m18446744073709551615 end\n\
none | m18446744073709551616 end\n\
none | m1  end\n\
none | m1 end \n\
none | end\n\
none | s1 end\n\
0 1 unfinished | m1 unfinished\n\
none | s0 m1 end\n\
none | s01 m1 end\n\
0 1 value | m1 body.a octet 255\n\
none | m1 body.a octet 256\n\
none | m1 body.a octet 01\n\
none | m1 body.a octet +1\n\
none | m1 body.a octet -1\n\
0 1 value | m1 body.a short -32768\n\
none | m1 body.a short -32769\n\
0 1 value | m1 body.a short 32767\n\
none | m1 body.a short 32768\n\
none | m1 body.a short -0\n\
0 1 value | m1 body.a ushort 65535\n\
none | m1 body.a ushort 65536\n\
0 1 value | m1 body.a long -2147483648\n\
none | m1 body.a long 2147483648\n\
0 1 value | m1 body.a ulong 4294967295\n\
none | m1 body.a ulong 4294967296\n\
0 1 named | m1 body.a ulong 7 OMG 1\n\
0 1 named | m1 body.a ulong 7 TAG\n\
none | m1 body.a ulong 7 7\n\
none | m1 body.a ulong 7 OMG 01\n\
0 1 value | m1 body.a longlong -9223372036854775808\n\
none | m1 body.a longlong -9223372036854775809\n\
0 1 value | m1 body.a longlong 9223372036854775807\n\
none | m1 body.a longlong 9223372036854775808\n\
0 1 value | m1 body.a ulonglong 18446744073709551615\n\
none | m1 body.a ulonglong 18446744073709551616\n\
0 1 value | m1 body.a boolean true\n\
0 1 value | m1 body.a boolean false\n\
none | m1 body.a boolean True\n\
0 1 value | m1 body.a float 3f800000\n\
none | m1 body.a float 3F800000\n\
none | m1 body.a float 3f80000\n\
0 1 value | m1 body.a double 7ff0000000000000\n\
none | m1 body.a double 7ff000000000000\n\
0 1 value | m1 body.a char \"A\"\n\
0 1 value | m1 body.a char \"\\xe4\"\n\
none | m1 body.a char \"\\xE4\"\n\
none | m1 body.a char \"AB\"\n\
none | m1 body.a char \"\"\n\
none | m1 body.a char \"\"\"\n\
none | m1 body.a char \"\\\"\n\
0 1 value | m1 body.a enum red\n\
none | m1 body.a enum 1red\n\
0 1 value | m1 body.a enum nnnnnnnnnnnnnnnnnnnnnnnnnnnnnnnnnnnnnnnnnnnnnnnnnnnnnnnnnnnnnnnn\n\
none | m1 body.a enum nnnnnnnnnnnnnnnnnnnnnnnnnnnnnnnnnnnnnnnnnnnnnnnnnnnnnnnnnnnnnnnnn\n\
0 1 value | m1 body.a count 0\n\
none | m1 body.a count 00\n\
0 1 value | m1 body.a[0].b encapsulation 12\n\
0 1 value | m1 body.a order big\n\
none | m1 body.a order middle\n\
0 1 text | m1 body.a string @0 \"\"\n\
0 1 text | m1 body.a string @0 \"\" more\n\
0 1 text | m1 body.a string @32 \"caf\\xc3\\xa9 \\x5c \\x22\" more\n\
0 1 text | m1 body.a string @0 \"a more\" more\n\
none | m1 body.a string @0 \"a\"b\"\n\
none | m1 body.a string @0 \"a\\b\"\n\
0 1 text | m1 body.a string @0 \"aaaaaaaaaaaaaaaaaaaaaaaaaaaaaaaa\"\n\
none | m1 body.a string @0 \"aaaaaaaaaaaaaaaaaaaaaaaaaaaaaaaaa\"\n\
none | m1 body.a string @0 \"\\xffaaaaaaaaaaaaaaaaaaaaaaaaaaaaaaaa\"\n\
none | m1 body.a string @4294967296 \"a\"\n\
none | m1 body.a string 0 \"a\"\n\
0 1 octets | m1 body.a octets @0\n\
0 1 octets | m1 body.a octets @0 more\n\
0 1 octets | m1 body.a octets @0 00ff\n\
none | m1 body.a octets @0 00f\n\
none | m1 body.a octets @0 00FF\n\
0 1 octets | m1 body.a octets @0 0000000000000000000000000000000000000000000000000000000000000000 more\n\
none | m1 body.a octets @0 000000000000000000000000000000000000000000000000000000000000000000\n\
0 1 octets | m1 body.a wstring @0 00e4\n\
0 1 octets | m1 body.a wchar @0 00e4\n\
0 1 left | m1 body.a rest @0 00\n\
none | m1 body.a rest @0\n\
none | m1 body.a rest @0 00 more\n\
0 1 rest | m1 rest @0 00\n\
0 1 rest | m1 rest @18446744073709551615 00\n\
none | m1 rest @0 000000000000000000000000000000000000000000000000000000000000000000\n\
0 1 value | m1 header.request_id ulong 1\n\
0 1 text | m1 exception string @0 \"IDL:A:1.0\"\n\
0 1 value | m1 body short 1\n\
0 1 value | m1 body[0][1] short 1\n\
0 1 later | m1 bodya short 1\n\
none | m1 footer.a short 1\n\
none | m1 body. short 1\n\
none | m1 body.1a short 1\n\
none | m1 body.a[01] short 1\n\
0 1 value | m1 body.a[4294967295] short 1\n\
none | m1 body.a[4294967296] short 1\n\
none | m1 body.a[ short 1\n\
none | m1 body.a] short 1\n\
0 1 value | m1 body.nnnnnnnnnnnnnnnnnnnnnnnnnnnnnnnnnnnnnnnnnnnnnnnnnnnnnnnnnnnnnnnn short 1\n\
none | m1 body.nnnnnnnnnnnnnnnnnnnnnnnnnnnnnnnnnnnnnnnnnnnnnnnnnnnnnnnnnnnnnnnnn short 1\n\
0 1 value | m1 body.a.a.a.a.a.a.a.a.a.a.a.a.a.a.a.a.a.a.a.a.a.a.a.a short 1\n\
none | m1 body.a.a.a.a.a.a.a.a.a.a.a.a.a.a.a.a.a.a.a.a.a.a.a.a.a short 1\n\
0 1 later | m1 body.a fixed 7\n\
none | m1 body.a long-double 3f\n\
none | m1 body.a octet-x 7\n\
none | m1 body.a Fixed 7\n\
none | m1 body.a fixed\n\
0 1 call | m1 call 4 resolve\n\
0 1 call | m1 call 4 resolve IDL:A:1.0\n\
none | m1 call 04 resolve\n\
0 1 call | m1 call 4 oooooooooooooooooooooooooooooooooooooooooooooooooooooooooooooooooooooooooooooooooooooooooooooooooooooooooooooooooooooooooooooooo\n\
none | m1 call 4 ooooooooooooooooooooooooooooooooooooooooooooooooooooooooooooooooooooooooooooooooooooooooooooooooooooooooooooooooooooooooooooooooo\n\
none | m1 call 4 \n\
none | m1 time 2026-11-23T08:13:25.594289000Z\n\
1 1 time | s1 m1 time 2026-11-23T08:13:25.594289000Z\n\
1 1 time | s1 m1 time - packet 31\n\
none | s1 m1 time 2026-11-23T08:13:25.594289Z\n\
none | s1 m1 time 2026-11-23T08:13:25.594289000Z packet 0\n\
2 2 answers | s2 m2 answers s1 m2 ask after 0.000260000\n\
2 2 answers | s2 m2 answers s1 m2 ask after -\n\
2 2 answers | s2 m2 answers s1 m2 ask after -1.000000000\n\
none | s2 m2 answers s1 m2 ask after 0.00026\n\
none | s2 m2 answers s0 m2 ask after -\n\
none | m2 answers s1 m2 ask after -\n\
2 2 raises | s2 m2 raises IDL:A:1.0\n\
none | m2 raises IDL:A:1.0\n\
0 3 continues | m3 continues m1\n\
none | m3 continues m0\n\
0 1 cancelled | m1 cancelled by m3\n\
0 1 fault | m1 fault short at 97\n\
0 1 fault | m1 fault encap-short at 97\n\
none | m1 fault Short at 97\n\
none | m1 fault short at -\n\
0 0 broken | stream fault truncated at 5\n\
1 0 broken | s1 stream fault truncated at 5\n\
none | m1 stream fault truncated at 5\n\
1 0 closed | s1 closed fin\n\
none | closed fin\n\
1 0 stream | s1 stream 10.0.0.1:7 > 10.0.0.2:8 at 2026-11-23T08:13:25.000000001Z\n\
1 0 stream | s1 stream [2001:db8::1]:2809 > [::ffff:192.0.2.1]:1 at -\n\
1 0 stream | s1 stream 10.0.0.1:7 > 10.0.0.2:8 at - with s3\n\
1 0 stream | s1 stream 10.0.0.1:7 > 10.0.0.2:8 at - with s3 behind 70 found\n\
1 0 stream | s1 stream 10.0.0.1:7 > 10.0.0.2:8 at - behind 70\n\
1 0 stream | s1 stream 10.0.0.1:7 > 10.0.0.2:8 at - found\n\
none | s1 stream 10.0.0.1:7 > 10.0.0.2:8 at - behind 0\n\
none | s1 stream 10.0.0:7 > 10.0.0.2:8 at -\n\
none | s1 stream 10.0.0.1.2:7 > 10.0.0.2:8 at -\n\
none | s1 stream 10.0.0.1 > 10.0.0.2:8 at -\n\
none | stream 10.0.0.1:7 > 10.0.0.2:8 at -\n\
1 0 total | s1 total messages 3 faults 0 octets 120\n\
0 0 total | total messages 3 faults 0 octets 120\n\
none | total messages 3 faults 00 octets 120\n\
0 0 capture | capture fault truncated at 24\n\
none | s1 capture fault truncated at 24\n\
0 0 totals | total streams 2 messages 4 faults 0 packets 9 octets 900\n\
0 0 totals | total streams 2 messages 4 faults 0 packets 9 octets 900 other 3\n\
none | total streams 2 messages 4 faults 0 packets 9 octets 900 other\n\
0 1 later | m1 hello\n\
0 1 later | m1 hello there  friend\n\
1 0 later | s1 hello-you 5\n\
none | hello\n\
none | m1 h\n\
none | m1 hello-\n\
none | m1 a--b\n\
none | m1 Hello\n\
none | m1 end-of 5\n\
0 1 later | m1 starts\n\
none | m1 hello ";
