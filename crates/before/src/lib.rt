// Document 01's definitions as they stood when every data column existed, and that every call is as it was where none is missing. Laws alone.
#![tactic(auto)]
