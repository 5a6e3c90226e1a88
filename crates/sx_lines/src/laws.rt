// What printing and reading back come to.
ghost use Rattle.std.specs.Prelude.{◌≡◌, List};
ghost use Rattle.sx_lines.specs.declared.events.Built.{Built};
ghost use Rattle.sx_lines.specs.Normal.{IsNormal, whole};

/// Two normal lists of events that are printed alike are the same list. So `read_back` gives exactly what was printed.
pub fn printing()
    ensures { (es fs : List Built) → IsNormal es → IsNormal fs → whole es ≡ whole fs → es ≡ fs }
{}
