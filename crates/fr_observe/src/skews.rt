ghost use Rattle.std.specs.Prelude.{◌≡◌, ◌≤◌, All, IfSome, length};
ghost use Rattle.std.specs.Option.{option_map};
ghost use Rattle.fr_course.specs.Near.{IsNearCourse};
ghost use Rattle.fr_course.specs.Spread.{most_odd_skew};
ghost use Rattle.fr_observe.specs.Observing.{courses_of, next_courses, with_senders};
ghost use Rattle.fr_sightings.specs.Ranges.{IsProperSender};
ghost use Rattle.fr_observe.specs.Skews.{AreSkews};

use fr_course::{Course, Scale, least_even_skew, least_odd_skew, most_even_skew, most_odd_skew};
use fr_sightings::{CourseList, Sender};

/// The limits of the skew of both cycles of a double cycle, in ticks; an upper one may be missing.
#[derive(Clone, Copy, Debug, PartialEq, Eq)]
pub struct Skews {
    pub even_low: i64,
    pub even_high: Option<i64>,
    pub odd_low: i64,
    pub odd_high: Option<i64>,
}

/// The courses of senders.
pub fn courses_of(scale: &Scale, senders: &[Sender]) -> CourseList
    requires few { length senders.now ≤ 64 }
    requires senders { All (IsProperSender scale.now) senders.now }
    ensures value { result ≡ courses_of senders.now }
    ensures near { All (IsNearCourse scale.now) result }
{
    let mut courses = CourseList::new();
    for sender in senders {
        courses.push(sender.course);
    }
    courses
}

// Those of the next double cycle, where each has one there.
fn next_courses(scale: &Scale, senders: &[Sender]) -> Option<CourseList>
    requires few { length senders.now ≤ 64 }
    requires senders { All (IsProperSender scale.now) senders.now }
    ensures value { result ≡ next_courses senders.now }
    ensures near { IfSome result (All (IsNearCourse scale.now)) }
{
    let mut courses = CourseList::new();
    for sender in senders {
        match sender.next {
            None => return None,
            Some(next) => courses.push(next),
        }
    }
    Some(courses)
}

fn with_senders(senders: &[Sender], high: Option<i64>) -> Option<i64>
    ensures { result ≡ with_senders senders.now high }
{
    match senders.first() {
        None => None,
        Some(_) => high,
    }
}

fn next_skew(scale: &Scale, courses: &[Course], senders: &[Sender]) -> Option<i64>
    requires courses { All (IsNearCourse scale.now) courses.now }
    requires few { length senders.now ≤ 64 }
    requires senders { All (IsProperSender scale.now) senders.now }
    ensures { result ≡ option_map (most_odd_skew scale.now courses.now) (next_courses senders.now) }
{
    match next_courses(scale, senders) {
        None => None,
        Some(next) => Some(most_odd_skew(scale, courses, next.as_slice())),
    }
}

/// The limits of the skew of these senders.
#[tactic(auto, unfolding(crate::specs::Observing::even_low, crate::specs::Observing::even_high, crate::specs::Observing::odd_low, crate::specs::Observing::odd_high))]
pub fn skews_of(scale: &Scale, senders: &[Sender]) -> Skews
    requires few { length senders.now ≤ 64 }
    requires senders { All (IsProperSender scale.now) senders.now }
    ensures { AreSkews scale.now senders.now result }
{
    let list = courses_of(scale, senders);
    let courses = list.as_slice();
    Skews {
        even_low: least_even_skew(scale, courses),
        even_high: with_senders(senders, Some(most_even_skew(scale, courses))),
        odd_low: least_odd_skew(scale, courses),
        odd_high: with_senders(senders, next_skew(scale, courses, senders)),
    }
}
