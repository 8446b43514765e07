// The twelve settings of a row by name.
ghost use Rattle.std.specs.Prelude.{◌≡◌, ◌≤◌, length};
ghost use Rattle.settings_row.specs.Named.{settings_of};

use silk::structs::Settings;

// The settings that the first 12 words of a row are.
#[tactic(auto, unfolding(crate::specs::Named::settings_of))]
pub fn settings_of(row: &[i32]) -> Settings
    requires { 12 ≤ length row.now }
    ensures { result ≡ settings_of row.now }
{
    Settings {
        subfr_length: row[0],
        nb_subfr: row[1],
        predictLPCOrder: row[2],
        shapingLPCOrder: row[3],
        nStatesDelayedDecision: row[4],
        warping_Q16: row[5],
        signalType: row[6],
        quantOffsetType: row[7],
        NLSFInterpCoef_Q2: row[8],
        Seed: row[9],
        Lambda_Q10: row[10],
        LTP_scale_Q14: row[11],
    }
}
