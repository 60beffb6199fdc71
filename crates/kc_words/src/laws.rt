//! Packing and unpacking undo each other. Each function does nothing: its contract is the law.

ghost use Rattle.kc_words.specs.Packed.{UnpackUndoesPack, PackUndoesUnpack};

/// Unpacking what was packed gives the three numbers: `unpack(pack(new, label, phase))`.
pub fn unpack_undoes_pack()
    ensures { UnpackUndoesPack }
{}

/// Packing what was unpacked gives the same word.
pub fn pack_undoes_unpack()
    ensures { PackUndoesUnpack }
{}
