ghost use Rattle.fr_text.specs.Refusal.{Refusing, RefusesFirst, RefusesOneFirst, RefusesOrAccepts};

/// A list of records has one first refused record at most, and one reason for it.
pub fn one_first_refused()
    ensures { (reason : Refusing) → RefusesOneFirst reason }
{}

/// Where a record is refused it is not so that none is.
pub fn first_refused_excludes_none()
    ensures { (reason : Refusing) → RefusesOrAccepts reason }
{}

/// Of each list of records either none is refused or there is a first that is.
pub fn refused_or_none()
    ensures { (reason : Refusing) → RefusesFirst reason }
{}
