//! Laws of the definitions, each proved as the contract of an empty function.

ghost use Rattle.gdb_packets.specs.Escapes.{ReadsEscapes};
ghost use Rattle.gdb_packets.specs.Forms.{ReadsForms};
ghost use Rattle.gdb_packets.specs.Heard.{HearsFramed, HearsStream};

/// A packet has at most one request, which is the one that is read.
pub fn forms_law()
    ensures { ReadsForms }
{}

/// Of a stream of bytes the packets are heard that it holds, and the bytes between them.
pub fn stream_law()
    ensures { HearsStream }
{}

/// A content is framed so that it is heard.
pub fn framed_law()
    ensures { HearsFramed }
{}

/// Bytes are spelled so that they are read.
pub fn escapes_law()
    ensures { ReadsEscapes }
{}
