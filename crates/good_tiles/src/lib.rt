// Laws alone: the bytes of our tiles are good by the definition of crate `messages`, which knows nothing of our writers. A reader can build on it.
#![tactic(auto)]
