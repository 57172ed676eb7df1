//! A law over the definitions alone: the contract of a function that does nothing.

ghost use Rattle.needleoat_wire_c.specs.Laws.{WrittenIsRecord};

/// A record that a call of this crate writes is one that an array of records may have.
pub fn written_records_are_held()
    ensures { WrittenIsRecord }
{
    pldm_pdr::laws::records_fit();
}
