// The quantisation offset of a frame.
ghost use Rattle.std.specs.Prelude.{◌≡◌, ◌≤◌};
ghost use Rattle.residuals.specs.Offset.{offset_of};

// silk_Quantization_Offsets_Q10 of tables_other.rs: not voiced and voiced, each for the offset types 0 and 1.
const OFFSETS_Q10: [[i32; 2]; 2] = [[100, 240], [32, 100]];

// The offset by signal type (0 and 1 not voiced, 2 voiced) and offset type.
pub fn quant_offset(signal_type: usize, offset_type: usize) -> i32
    requires { (signal_type ≤ 2) × (offset_type ≤ 1) }
    ensures { result ≡ offset_of signal_type offset_type }
{
    OFFSETS_Q10[signal_type >> 1][offset_type]
}
