//! Worked texts of heads and lines, which the checker computes.

ghost use Rattle.std.specs.Prelude.{◌≡◌, [], ◌∷◌, codes};
ghost use Rattle.hd_delivery.specs.declared.vocabulary.Side.TheVariants.{Client, Server};
ghost use Rattle.hd_trace.specs.declared.trace.ToldStep.TheVariants.{Attach, Close, Detach, Feed, Lend, Take, Tick};
ghost use Rattle.ha_audit.specs.Examples.{told_by, usual_head};
ghost use Rattle.ha_audit.specs.Grammar.{line_text, trace_text};

/// How a head and lines are spelled.
pub fn spelled()
    ensures head { trace_text usual_head [] ≡ codes "trace json 2 on 1024 100000 32768\n" }
    ensures attach { line_text (told_by Client (Attach 10)) ≡ codes "c attach 10\n" }
    ensures detach { line_text (told_by Server Detach) ≡ codes "s detach\n" }
    ensures fed_nothing { line_text (told_by Server (Feed [])) ≡ codes "s fed -\n" }
    ensures fed { line_text (told_by Server (Feed (123 ∷ 125 ∷ 30 ∷ []))) ≡ codes "s fed 7b7d1e\n" }
    ensures lent { line_text (told_by Client (Lend (0 ∷ 255 ∷ []))) ≡ codes "c lent 00ff\n" }
    ensures took { line_text (told_by Server (Take (codes "shaken"))) ≡ codes "s took shaken\n" }
    ensures tick { line_text (told_by Client (Tick 15000)) ≡ codes "c tick 15000\n" }
    ensures close { line_text (told_by Client Close) ≡ codes "c close\n" }
    ensures two { trace_text usual_head (told_by Server (Attach 0) ∷ told_by Client (Attach 0) ∷ []) ≡
        codes "trace json 2 on 1024 100000 32768\nc attach 0\ns attach 0\n" }
{}
