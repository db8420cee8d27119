//! The report of a closed log, by events or by places, and names for the numbers that its threads chose.
#![tactic(auto)]

mod builder;
mod name_lists;
mod naming;
mod places;
mod reporting;

pub use builder::Naming;
pub use name_lists::{NameLists, NamingFault, names_of};
pub use naming::is_named;
pub use places::{Place, PlaceRaces, races_by_place, report_places};
pub use rapid_text::{Device, Kind, Names, Output};
pub use reporting::{ReportFault, report_closed};
pub use trace_report::Summary;
