// The limited character set, the checksum, a telegram's marks, and looking into slices of any length (rules B1 to B7, G1).
#![tactic(auto)]

pub mod characters;
pub mod checksum;
pub mod marks;
pub mod slices;
