ghost use Rattle.std.specs.Prelude.{ℕ, Bool, List};
ghost use Rattle.net_values.specs.Net.{Net};
ghost use Rattle.cert_make.specs.Laws.{CommonerHasCertificate, NarrowOrWide};

/// A net within the limits that meets Commoner's condition has a certificate for it.
pub fn commoner_nets_have_a_certificate()
    ensures { (net : Net) → CommonerHasCertificate net }
{}

/// The named rows are narrow at every column, or there is a first wide check.
pub fn named_rows_are_narrow_or_wide()
    ensures { (net : Net) (rows : List (List ℕ)) (named : ℕ → Bool) → NarrowOrWide net rows named }
{}
