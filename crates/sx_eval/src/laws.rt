// What the definitions come to.
ghost use Rattle.sx_eval.specs.Examples.{SelectWhatTheySay};

/// What some expressions select on an open tree.
pub fn examples()
    ensures { SelectWhatTheySay }
{}
