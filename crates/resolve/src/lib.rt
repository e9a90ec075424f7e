// Layer 3 in code: classes and rows in the work buffer, and where a row leads.

#![tactic(auto)]

pub mod limits; // what a call is limited to
pub mod classes; // classes entered
pub mod paths; // their paths
pub mod chain; // where a reference leads
pub mod links; // classes linked to their supers' classes
pub mod rows; // rows kept, then resolved
pub mod marks; // where a row's export stands
