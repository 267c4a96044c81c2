//! Logs of entries over any state: what keys show after them, the versions of keys, and their laws.
#![tactic(auto)]
