//! The model of the core: sessions, requests, graph, tracker, image and planned failures as one state,
//! one operation of one actor a step, and the laws that hold for every list of steps.
//!
//! The model stands in `specs/`; the crates above bind their code to it. The functions of this crate
//! do nothing: their contracts are the laws.
#![tactic(auto)]

pub mod laws;
