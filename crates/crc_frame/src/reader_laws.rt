//! What holds of reading, as contracts of functions that do nothing.
ghost use Rattle.std.specs.Prelude.{ℕ};
ghost use Rattle.byteorder.specs.Endian.{big_bytes};
ghost use Rattle.crc_frame.specs.Fronts.{front_at, number_at, run_at, run_bytes, as_it_is, HasLength, FitsIn, IsRun, IsReadBack, WasWritten};

/// What was written is read, whatever stands behind it.
pub fn what_is_written_is_read()
    ensures front { (width : ℕ) → IsReadBack (front_at width) as_it_is (HasLength width) }
    ensures number { (width : ℕ) → IsReadBack (number_at width) (big_bytes width) (FitsIn width) }
    ensures run { IsReadBack run_at run_bytes IsRun }
{}

/// What is read was written so.
pub fn what_is_read_was_written()
    ensures front { (width : ℕ) → WasWritten (front_at width) as_it_is (HasLength width) }
    ensures number { (width : ℕ) → WasWritten (number_at width) (big_bytes width) (FitsIn width) }
    ensures run { WasWritten run_at run_bytes IsRun }
{}
