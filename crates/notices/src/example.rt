//! A worked example of what a notice does.
ghost use Rattle.notices.specs.Example.{LateWalk};

/// A walk of 300 seconds with lateness 60, shut from 100 until 200: 99 gives 459, and 100, 199 and 200 give 560.
pub fn late_walk_stands()
    ensures { LateWalk }
{}
