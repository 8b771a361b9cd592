// Laws alone: the bytes of our messages are well-formed by PB's own definition, which knows nothing of our writers. A reader can build on it.
#![tactic(auto)]
