//! Laws of courses over a keeper, stated at a small keeper.
//! Pure.
ghost use Rattle.keep_course.specs.Laws.{CourseLaw, ChainLaw};

/// Shows that a crash since the start of a course over the small keeper leaves an archive of one of its
/// talks, or one in doubt there.
///
/// The statement is of that keeper alone.
pub fn course_law()
    ensures { CourseLaw }
{}

/// Shows that runs of acts in order over the small keeper make one, whose crashes leave what those of
/// one of them leave.
///
/// The statement is of that keeper alone.
pub fn chain_law()
    ensures { ChainLaw }
{}
