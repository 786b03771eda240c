//! Streams worked by hand: what an engine writes of them and at their end, and their checkpoints,
//! hold by computation.
#![tactic(auto)]

ghost use Rattle.std.specs.Prelude.{codes};
ghost use Rattle.giop_stream_worked.specs.Worked.{IsTableOfEntries, IsTableOf, IsTableUpTo, put_file_text, big_file_text, tri_file_text, ask_file_text, builtin, put_table, big_table, tri_table, ask_table};
ghost use Rattle.giop_stream_worked.specs.Streams.{CloseConnection, LittleRequest, Interleaved, JoinedFragment, SameIdTwice, OneMayBeOpen, Cancelled, Replied, Raised, CodeSets, CodeSetsCutShort, Profile};
ghost use Rattle.giop_stream_worked.specs.Checkpoints.{CheckpointInHeader, CheckpointInLayout2, CheckpointInPayload, CheckpointAfterFault, CheckpointBetweenMessages};

/// The text and the closing of these streams, with the declarations and the requests of each. The
/// function has no body; it is called for its contract.
pub fn worked_streams()
    // A message that has no header type ends at its own header.
    ensures closes { CloseConnection }
    // A little-endian 1.2 Request, whose body is aligned to 8.
    ensures request { LittleRequest }
    // Two Requests whose fragments are interleaved.
    ensures interleaved { Interleaved }
    // A Request of 1.1 and its Fragment.
    ensures joined { JoinedFragment }
    // Two messages with the same request id.
    ensures id { SameIdTwice }
    // Two messages, if one message may be open.
    ensures one_open { OneMayBeOpen }
    // A CancelRequest, and a Fragment of the message that it cancelled.
    ensures cancelled { Cancelled }
    // A Reply with the results of its request's operation, and one with an exception.
    ensures reply { Replied }
    ensures raised { Raised }
    // Encapsulations: the code sets of a service context, the same with too few octets, and an internet profile.
    ensures code_sets { CodeSets }
    ensures short { CodeSetsCutShort }
    ensures profile { Profile }
    // The request table of the Replies gives the operations that the request list gives.
    ensures request_table { IsTableOfEntries }
{}

/// The tables by which the streams are read are those of signature files. The function has no body;
/// it is called for its contract.
pub fn worked_tables()
    // Each text spells a valid file, and this is the file's table. `one_table` of `giop_sig` says
    // that the file has no other.
    ensures empty { IsTableOf (codes "signatures 1;") builtin }
    ensures puts { IsTableOf put_file_text put_table }
    ensures bigs { IsTableOf big_file_text big_table }
    ensures tris { IsTableUpTo 3 tri_file_text tri_table }
    ensures asks { IsTableOf ask_file_text ask_table }
{}

/// The checkpoints of worked streams, octet for octet. The function has no body; it is called for
/// its contract.
pub fn worked_checkpoints()
    // The checkpoints in a header, in either layout; in the payload of a faulted message; and after
    // a stream fault.
    ensures header { CheckpointInHeader }
    ensures in_an_old_header { CheckpointInLayout2 }
    ensures body { CheckpointInPayload }
    ensures stopped { CheckpointAfterFault }
    // The checkpoint with two open messages, one of them within a number.
    ensures messages { CheckpointBetweenMessages }
{}
