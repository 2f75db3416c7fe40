//! Laws of the trace of the sweeps.

ghost use Rattle.removal_laws.specs.TraceLaws.{TraceIsRemovals, TraceFollowsRule, TraceLeads, SweepKeepsApart};

/// The vertices of the trace, with their steps, are the removals of the first steps, in order.
pub fn trace_is_removals()
    ensures { TraceIsRemovals }
{}

/// Each vertex of the trace is taken out by the rule, against the segments that are live at that moment.
pub fn trace_follows_rule()
    ensures { TraceFollowsRule }
{}

/// What a step takes out leads, one vertex after the other, from the edges before its sweep to those after it.
pub fn trace_leads()
    ensures { TraceLeads }
{}

/// Where segments have no point in common but permitted ones, this stays so over a sweep.
pub fn sweep_keeps_apart()
    ensures { SweepKeepsApart }
{}
