//! Laws of texts, for the crates above: each function does nothing, and its clause is the law.
ghost use Rattle.mos_forms.specs.Canonical.{TextsReadBeside};

/// Beside records with keys a text is read as by the answer whether it is one of them.
pub fn texts_are_read_beside_keys()
    ensures { TextsReadBeside }
{}
